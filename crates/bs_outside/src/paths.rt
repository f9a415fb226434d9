//! Paths of the source tree.
ghost use Rattle.std.specs.Prelude.{◌≡◌, ◌==◌, ◌&&◌, ◌++◌, ◌∷◌, [], true, IfOk, IfSome, OnOk, map, length, ◌<◌};
ghost use Rattle.std.specs.List.{list_all};
ghost use Rattle.std.specs.Str.{is_utf8};
ghost use Rattle.bs_outside.specs.Paths.{is_named, may_be_path, has_named_segments, is_normal_path, IsNormalPath, is_segment, begins_with_slash, reached, reached_by, segments_of, path_of, normal_of, is_slash, parent_of};

use crate::{NoMemory, Text, cut};
use std::alloc::Global;

/// The most bytes that a path has.
pub const PATH_LIMIT: usize = 1024;

/// Whether the text is a path: at most 1,024 bytes of UTF-8 without byte 0 that are `/`, or segments with one slash before each, none of them empty, `.` or `..`.
pub fn is_normal_path(text: &[u8]) -> bool
    ensures { result ≡ is_normal_path text.now }
{
    may_be_path(text) && has_named_segments(text)
}

/// Whether the name is one segment of a path.
pub fn is_segment(alloc: Global, name: &[u8]) -> Result<bool, NoMemory>
    ensures { IfOk result (λ answer. answer ≡ is_segment name.now) }
{
    if name.is_empty() || name.contains(&b'/') {
        return Ok(false);
    }
    let mut path = Vec::from_slice(alloc, b"/")?;
    path.extend_from_slice(name)?;
    Ok(is_normal_path(&path))
}

fn may_be_path(text: &[u8]) -> bool
    ensures { result ≡ may_be_path text.now }
{
    text.len() <= PATH_LIMIT && is_utf8(text) && !text.contains(&0)
}

fn is_utf8(text: &[u8]) -> bool
    ensures { result ≡ is_utf8 text.now }
{
    match std::str::from_utf8(text) {
        Ok(_) => true,
        Err(_) => false,
    }
}

fn is_named(segment: &[u8]) -> bool
    ensures { result ≡ is_named segment.now }
{
    !segment.is_empty() && segment != b".".as_slice() && segment != b"..".as_slice()
}

fn are_named(text: &[u8]) -> bool
    ensures { result ≡ list_all is_named (segments_of text.now) }
{
    text.split(|byte| *byte == b'/').all(is_named)
}

fn has_named_segments(text: &[u8]) -> bool
    ensures { result ≡ has_named_segments text.now }
{
    match text {
        [] => false,
        [only] => *only == b'/',
        [first, rest @ ..] => *first == b'/' && are_named(rest),
    }
}

/// The folder in which the path lies: what stands before its last slash, or `/`.
pub fn parent(path: &[u8]) -> &[u8]
    ensures { result.now ≡ parent_of path.now }
{
    let mut end = path.len();
    while end > 1 {
        if path[end - 1] == b'/' {
            return &path[..end - 1];
        }
        end -= 1;
    }
    b"/"
}

/// Goes one segment on.
fn step<'a>(at: &mut Vec<&'a [u8]>, segment: &'a [u8]) -> Result<(), NoMemory>
    ensures { OnOk result (map (λ s. s.now) at.new.items ≡ reached_by (map (λ s. s.now) at.old.items) segment.now) }
{
    if segment.is_empty() || segment == b".".as_slice() {
        return Ok(());
    }
    if segment == b"..".as_slice() {
        at.pop();
        return Ok(());
    }
    at.push(segment)?;
    Ok(())
}

/// Goes on by each segment of the text.
fn walk<'a>(at: &mut Vec<&'a [u8]>, text: &'a [u8]) -> Result<(), NoMemory>
    ensures { OnOk result (map (λ s. s.now) at.new.items ≡ reached (map (λ s. s.now) at.old.items) (segments_of text.now)) }
{
    let mut left = Some(text);
    while let Some(rest) = left {
        let (segment, behind) = cut(rest, b'/');
        step(at, segment)?;
        left = behind;
    }
    Ok(())
}

/// The path of these segments.
fn joined(alloc: Global, segments: &[&[u8]]) -> Result<Vec<u8>, NoMemory>
    ensures { IfOk result (λ path. path.items ≡ path_of (map (λ s. s.now) segments.now)) }
{
    if segments.is_empty() {
        return Ok(Vec::from_slice(alloc, b"/")?);
    }
    let mut path = Vec::new(alloc);
    for segment in segments {
        path.push(b'/')?;
        path.extend_from_slice(segment)?;
    }
    Ok(path)
}

/// The path that the text names from the folder `base`, or nothing where it names none. Empty segments and `.` fall away, `..` goes
/// one up and stops at `/`. A text that begins with `/` is named from `/`, whatever the base; another names nothing from what is no path.
/// What is longer than a path may be, holds byte 0 or is not UTF-8 is no path.
pub fn normal(alloc: Global, base: &Text, text: &[u8]) -> Result<Option<Text>, NoMemory>
    ensures answer { IfOk result (λ path. path ≡ normal_of base.now text.now) }
    ensures normal { IfOk result (λ path. IfSome path IsNormalPath) }
{
    let mut at = Vec::new(alloc);
    if !begins_with_slash(text) {
        if !is_normal_path(base.as_slice()) {
            return Ok(None);
        }
        walk(&mut at, base.as_slice())?;
    }
    walk(&mut at, text)?;
    let path = joined(alloc, &at)?;
    if may_be_path(&path) {
        Ok(Some(Text::from_vec(path)))
    } else {
        Ok(None)
    }
}

fn begins_with_slash(text: &[u8]) -> bool
    ensures { result ≡ begins_with_slash text.now }
{
    match text {
        [] => false,
        [first, ..] => *first == b'/',
    }
}
