// What dayplan is asked for.
use console::arguments::{Request, asked};
use std::alloc::Global;
use std::test::Fail;

fn words(alloc: Global, all: &[&str]) -> Result<Vec<String>, Fail> {
    let mut words = Vec::new(alloc);
    for word in all {
        words.push(String::from_str(alloc, word)?)?;
    }
    Ok(words)
}

#[test]
fn two_words_are_known_and_each_alone(rt: HostRuntime) -> Result<(), Fail> {
    let none = words(rt.alloc(), &[])?;
    let help = words(rt.alloc(), &["--help"])?;
    let version = words(rt.alloc(), &["--version"])?;
    let longer = words(rt.alloc(), &["--helps"])?;
    let both = words(rt.alloc(), &["--help", "--version"])?;
    assert_eq!(rt; asked(&none), Request::Plan);
    assert_eq!(rt; asked(&help), Request::Help);
    assert_eq!(rt; asked(&version), Request::Version);
    assert_eq!(rt; asked(&longer), Request::Usage);
    assert_eq!(rt; asked(&both), Request::Usage);
    Ok(())
}
