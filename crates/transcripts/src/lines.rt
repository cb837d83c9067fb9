// The words of a script's line.
use guard_rules::number_of;
use std::alloc::{AllocError, Global};

/// The words of a line, which spaces part.
pub(crate) fn words_in(alloc: Global, line: &str) -> Result<Vec<String>, AllocError> {
    let mut words = Vec::new(alloc);
    for word in line.split(' ') {
        if !word.is_empty() {
            let word = String::from_str(alloc, word)?;
            if words.push(word).is_err() {
                return Err(AllocError);
            }
        }
    }
    Ok(words)
}

/// A line with each `{TEXT*N}` as the text N times.
pub(crate) fn expanded(alloc: Global, line: &str) -> Result<String, AllocError> {
    let mut to = String::new(alloc);
    let mut rest = line;
    for _ in 0..line.len() {
        let Some((before, group)) = rest.split_once('{') else {
            break;
        };
        let Some((text, count, behind)) = group_of(group) else {
            break;
        };
        to.push_str(before)?;
        for _ in 0..count {
            to.push_str(text)?;
        }
        rest = behind;
    }
    to.push_str(rest)?;
    Ok(to)
}

// The text, the number and what stands behind a group.
fn group_of(group: &str) -> Option<(&str, u64, &str)> {
    let (inside, behind) = group.split_once('}')?;
    let (text, count) = inside.split_once('*')?;
    Some((text, number_of(count.as_bytes())?, behind))
}
