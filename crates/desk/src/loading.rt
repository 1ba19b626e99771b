// The files that a journal loads.
use crate::desk::Surroundings;
use anyhow::{Context, Result};
use journal::PostKind;
use std::fs;
use store::Post;

/// The posts of a file with their places, in its order; none where one of its lines is no post.
pub(crate) fn load(
    surroundings: Surroundings<'_>,
    kind: PostKind,
    file: &str,
) -> Result<Vec<(u32, Post)>> {
    let alloc = surroundings.rt.alloc();
    let path = format!(in alloc; "{}{file}", surroundings.folder)?;
    let text = fs::read_to_string(surroundings.rt, path.as_str()).context(format_args!(
        "cannot read {file}"
    ))?;
    let mut posts = Vec::new(alloc);
    for (i, line) in text.lines().enumerate() {
        let read = kind.read(line);
        if let Some(post) = read.context(format_args!("{file} line {}", i + 1))? {
            posts.push(post)?;
        }
    }
    Ok(posts)
}
