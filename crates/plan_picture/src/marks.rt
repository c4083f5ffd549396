//! The elements that a picture is made of.
ghost use Rattle.std.specs.Prelude.{◌≡◌, ◌++◌, OnOk, IfOk};
ghost use Rattle.plan_picture.specs.Marks.{escaped_byte, escaped, words_begin, words_at, shortened, title, fitted, frame_at};

use crate::columns::{columns, push_beginning};
use crate::written::Written;
use std::alloc::{AllocError, Global};

/// A rectangle on the picture, in pixels: where it begins, and how large it is.
#[derive(Clone, Copy)]
pub struct Frame {
    pub x: u64,
    pub y: u64,
    pub width: u64,
    pub height: u64,
}

// Appends a text as XML writes it.
fn push_escaped(text: &mut Vec<u8>, words: &[u8]) -> Written
    ensures { OnOk result (text.new.items ≡ text.old.items ++ escaped words.now) }
{
    for byte in words {
        push_byte(text, *byte)?;
    }
    Ok(())
}

#[tactic(auto, unfolding(crate::specs::Marks::escaped_byte))]
fn push_byte(text: &mut Vec<u8>, byte: u8) -> Written
    ensures { OnOk result (text.new.items ≡ text.old.items ++ escaped_byte byte) }
{
    if byte == b'&' {
        return text.extend_from_slice("&amp;".as_bytes());
    }
    if byte == b'<' {
        return text.extend_from_slice("&lt;".as_bytes());
    }
    if byte == b'>' {
        return text.extend_from_slice("&gt;".as_bytes());
    }
    text.push(byte)?;
    Ok(())
}

/// Appends words of a class, at a place.
#[tactic(auto, unfolding(crate::specs::Marks::words_at))]
pub fn push_words(
    alloc: Global,
    text: &mut Vec<u8>,
    class: &str,
    x: u64,
    y: u64,
    words: &[u8],
) -> Written
    ensures { OnOk result (text.new.items ≡ text.old.items ++ words_at class.now x y words.now) }
{
    push_words_begin(alloc, text, class, x, y)?;
    push_escaped(text, words)?;
    text.extend_from_slice("</text>\n".as_bytes())
}

#[tactic(auto, unfolding(crate::specs::Marks::words_begin))]
fn push_words_begin(alloc: Global, text: &mut Vec<u8>, class: &str, x: u64, y: u64) -> Written
    ensures { OnOk result (text.new.items ≡ text.old.items ++ words_begin class.now x y) }
{
    let begin = format!(in alloc; "<text class=\"{class}\" x=\"{x}\" y=\"{y}\">")?;
    text.extend_from_slice(begin.as_bytes())
}

/// A text where only so many letters have room.
#[tactic(auto, unfolding(crate::specs::Marks::shortened))]
pub fn shortened(alloc: Global, room: u64, text: &[u8]) -> Result<Vec<u8>, AllocError>
    ensures { IfOk result (λ bytes. bytes.items ≡ shortened room text.now) }
{
    let mut bytes = Vec::new(alloc);
    if columns(text) <= room as u128 {
        bytes.extend_from_slice(text)?;
    } else {
        push_beginning(&mut bytes, room.saturating_sub(2), text)?;
        bytes.extend_from_slice("..".as_bytes())?;
    }
    Ok(bytes)
}

/// Appends a title, which a pointer on its group shows.
#[tactic(auto, unfolding(crate::specs::Marks::title))]
pub fn push_title(text: &mut Vec<u8>, words: &[u8]) -> Written
    ensures { OnOk result (text.new.items ≡ text.old.items ++ title words.now) }
{
    text.extend_from_slice("<title>".as_bytes())?;
    push_escaped(text, words)?;
    text.extend_from_slice("</title>\n".as_bytes())
}

/// Appends words in a room of so many letters; where they are cut, a pointer shows the whole.
#[tactic(auto, unfolding(crate::specs::Marks::fitted))]
pub fn push_fitted(
    alloc: Global,
    text: &mut Vec<u8>,
    class: &str,
    x: u64,
    y: u64,
    room: u64,
    words: &[u8],
) -> Written
    ensures { OnOk result (text.new.items
        ≡ text.old.items ++ fitted class.now x y room words.now) }
{
    if columns(words) <= room as u128 {
        return push_words(alloc, text, class, x, y, words);
    }
    text.extend_from_slice("<g>".as_bytes())?;
    push_title(text, words)?;
    let cut = shortened(alloc, room, words)?;
    push_words(alloc, text, class, x, y, cut.as_slice())?;
    text.extend_from_slice("</g>\n".as_bytes())
}

/// Appends a rectangle of a class.
#[tactic(auto, unfolding(crate::specs::Marks::frame_at))]
pub fn push_frame(alloc: Global, text: &mut Vec<u8>, class: &str, frame: Frame) -> Written
    ensures { OnOk result (text.new.items ≡ text.old.items ++ frame_at class.now frame) }
{
    let x = frame.x;
    let y = frame.y;
    let width = frame.width;
    let height = frame.height;
    let shape = format!(in alloc;
        "<rect class=\"{class}\" x=\"{x}\" y=\"{y}\" width=\"{width}\" height=\"{height}\"/>\n"
    )?;
    text.extend_from_slice(shape.as_bytes())
}
