// One rule's tightest windows.
use nvalue::season::{ROOM, Season, SeasonFault};
use propagator::count_window::CountWindow;
use propagator::tighten::tighten;
use store::window::Window;

fn window(low: u32, high: u32) -> Window {
    Window { low, high }
}

// Writes the new windows over the old, and answers the new count window as a pair; absent where no choice is left.
fn tightened(windows: &mut [Window], floor: u32, ceiling: u32) -> Option<(u32, u32)> {
    let count = CountWindow::new(floor, ceiling)?;
    let season = Season::new(windows).ok()?;
    let mut room = [Window::default(); ROOM];
    let tight = tighten(season, count, &mut room)?;
    windows.copy_from_slice(tight.season.windows);
    Some((tight.count.floor(), tight.count.ceiling()))
}

#[test]
fn five_lots_on_three_days(rt: HostRuntime) {
    let mut windows = [
        window(3, 5),
        window(4, 8),
        window(6, 9),
        window(1, 2),
        window(9, 12),
    ];
    assert_eq!(rt; tightened(&mut windows, 0, 3), Some((3, 3)));
    assert_eq!(rt;
        windows,
        [
            window(4, 5),
            window(4, 5),
            window(9, 9),
            window(1, 2),
            window(9, 9),
        ]
    );
}

#[test]
fn five_lots_on_two_days(rt: HostRuntime) {
    let mut windows = [
        window(3, 5),
        window(4, 8),
        window(6, 9),
        window(1, 2),
        window(9, 12),
    ];
    assert_eq!(rt; tightened(&mut windows, 0, 2), None);
    assert_eq!(rt;
        windows,
        [
            window(3, 5),
            window(4, 8),
            window(6, 9),
            window(1, 2),
            window(9, 12),
        ]
    );
}

#[test]
fn a_violated_run_pushes_a_lot_out(rt: HostRuntime) {
    let mut windows = [
        window(1, 2),
        window(1, 2),
        window(1, 2),
        window(2, 4),
        window(4, 4),
    ];
    assert_eq!(rt; tightened(&mut windows, 4, 5), Some((4, 4)));
    assert_eq!(rt;
        windows,
        [
            window(1, 2),
            window(1, 2),
            window(1, 2),
            window(3, 3),
            window(4, 4),
        ]
    );
}

#[test]
fn a_floor_out_of_reach(rt: HostRuntime) {
    let mut windows = [
        window(1, 2),
        window(1, 2),
        window(1, 2),
        window(2, 4),
        window(4, 4),
    ];
    assert_eq!(rt; tightened(&mut windows, 5, 5), None);
}

#[test]
fn one_lot_takes_one_day(rt: HostRuntime) {
    let mut windows = [window(7, 7)];
    assert_eq!(rt; tightened(&mut windows, 0, 1), Some((1, 1)));
    assert_eq!(rt; windows, [window(7, 7)]);
}

#[test]
fn no_lots_take_no_day(rt: HostRuntime) {
    assert_eq!(rt; tightened(&mut [], 0, 9), Some((0, 0)));
    assert_eq!(rt; tightened(&mut [], 1, 9), None);
}

#[test]
fn six_lots_on_two_days(rt: HostRuntime) {
    let mut windows = [
        window(2, 4),
        window(2, 5),
        window(4, 5),
        window(4, 7),
        window(5, 8),
        window(6, 9),
    ];
    assert_eq!(rt; tightened(&mut windows, 0, 2), Some((2, 2)));
    assert_eq!(rt;
        windows,
        [
            window(4, 4),
            window(4, 4),
            window(4, 4),
            window(4, 7),
            window(6, 8),
            window(6, 8),
        ]
    );
}

#[test]
fn six_lots_on_five_days(rt: HostRuntime) {
    let mut windows = [
        window(2, 4),
        window(2, 3),
        window(4, 5),
        window(2, 3),
        window(2, 3),
        window(5, 6),
    ];
    assert_eq!(rt; tightened(&mut windows, 5, 6), Some((5, 5)));
    assert_eq!(rt;
        windows,
        [
            window(4, 4),
            window(2, 3),
            window(5, 5),
            window(2, 3),
            window(2, 3),
            window(6, 6),
        ]
    );
}

#[test]
fn a_loose_count_window_keeps_every_day(rt: HostRuntime) {
    let mut windows = [window(1, 9), window(2, 3), window(4, 5)];
    assert_eq!(rt; tightened(&mut windows, 0, 99), Some((2, 3)));
    assert_eq!(rt; windows, [window(1, 9), window(2, 3), window(4, 5)]);
}

#[test]
fn faulty_windows_make_no_season(rt: HostRuntime) {
    let windows = [window(0, 9999), window(0, 10_000), window(2, 1)];
    let faulty = Season::new(&windows).err();
    assert!(rt; faulty == Some(SeasonFault::FaultyWindow(1)));
    let many = [window(1, 1); 257];
    let many = Season::new(&many).err();
    assert!(rt; many == Some(SeasonFault::TooManyLots));
}

#[test]
fn a_floor_above_the_ceiling(rt: HostRuntime) {
    assert!(rt; CountWindow::new(2, 1).is_none());
    assert!(rt; CountWindow::new(2, 2).is_some());
}
