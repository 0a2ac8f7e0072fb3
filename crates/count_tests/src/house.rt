// What the tests share: asking about windows on words.
use base_stores::words::WordStore;
use count::fault::CountFault;
use count::fewest::fewest;
use count::most::{Most, most};
use count::stretch::Stretch;

pub fn lots(first: usize, length: usize) -> Stretch {
    Stretch { first, length }
}

// The fewest days of these lots.
pub fn few(
    words: &mut [u32],
    stretch: Stretch,
    answer: &mut [u32],
    work: &mut [u32],
) -> Result<usize, CountFault> {
    fewest(&WordStore::new(words), stretch, answer, work)
}

// The most days of these lots.
pub fn many(
    words: &mut [u32],
    stretch: Stretch,
    answer: &mut [u32],
    work: &mut [u32],
) -> Result<Most, CountFault> {
    most(&WordStore::new(words), stretch, answer, work)
}

// The fewest days of all lots.
pub fn few_of_all(words: &mut [u32], answer: &mut [u32]) -> Result<usize, CountFault> {
    let all = lots(0, words.len() / 2);
    few(words, all, answer, &mut [0; 4096])
}

// The most days of all lots.
pub fn many_of_all(words: &mut [u32], answer: &mut [u32]) -> Result<Most, CountFault> {
    let all = lots(0, words.len() / 2);
    many(words, all, answer, &mut [0; 4096])
}
