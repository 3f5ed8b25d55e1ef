//! Feeds of any size, for trials: a feed is the same for the same seed.

ghost use Rattle.std.specs.Prelude.{◌≡◌, ◌++◌, ◌+◌, ◌<◌, ◌≤◌, ◌∷◌, [], IfOk, OnOk};
ghost use Rattle.px_feed.specs.Generator.{add, add_of, adds, after, after_add, after_adds, document, documents, draw, drawn, drop_before, feed, further, group, groups};

use itoa::Buffer;
use px_text::Bytes;
use std::alloc::{AllocError, Global};

/// How many groups a document has.
const GROUPS: u32 = 4;

/// Every document whose number this divides has a drop before it, while there are filters.
const DROP_EVERY: u32 = 16;

/// The feed of a seed: so many adds, and then so many documents, with a drop before every
/// sixteenth.
///
/// It takes time and memory in proportion to the feed, and fails only for want of memory.
pub fn generate(alloc: Global, seed: u32, filters: u32, documents: u32) -> Result<Bytes, AllocError>
    ensures feed { IfOk result (λ bytes. bytes ≡ feed seed filters documents) }
{
    let mut draws = Draws { state: seed };
    let mut out = Vec::new(alloc);
    write_adds(filters, &mut draws, &mut out)?;
    write_documents(filters, documents, &mut draws, &mut out)?;
    Ok(Bytes::from_vec(out))
}

/// The draws of a feed: the state of a linear congruential generator.
#[derive(Drop)]
struct Draws {
    state: u32,
}

impl Draws {
    // The next draw, below the bound.
    fn draw(&mut self, bound: u32) -> u32
        requires { 0 < bound }
        ensures given { result ≡ draw 1 bound self.old.state }
        ensures below { result < bound }
        ensures state { self.new.state ≡ drawn self.old.state }
    {
        self.state = state_behind(self.state);
        self.state / 65_536 % bound
    }

    // The next draw, below the bound, as a digit.
    fn digit(&mut self, bound: u32) -> u8
        requires positive { 0 < bound }
        requires one_digit { bound ≤ 10 }
        ensures given { result ≡ 48 + draw 1 bound self.old.state }
        ensures state { self.new.state ≡ drawn self.old.state }
    {
        b'0' + self.draw(bound) as u8
    }
}

// The state behind a draw.
#[tactic(auto, unfolding(crate::specs::Generator::drawn))]
fn state_behind(state: u32) -> u32
    ensures { result ≡ drawn state }
{
    ((u64::from(state) * 1_103_515_245 + 12_345) % 2_147_483_648) as u32
}

// Writes so many adds.
fn write_adds(filters: u32, draws: &mut Draws, out: &mut Vec<u8>) -> Result<(), AllocError>
    ensures text { OnOk result (out.new.items ≡ out.old.items ++ adds filters draws.old.state) }
    ensures state { OnOk result (draws.new.state ≡ after_adds filters draws.old.state) }
{
    for _ in 0..filters {
        write_add(draws, out)?;
    }
    Ok(())
}

// Writes the next add.
fn write_add(draws: &mut Draws, out: &mut Vec<u8>) -> Result<(), AllocError>
    ensures text { OnOk result (out.new.items ≡ out.old.items ++ add draws.old.state) }
    ensures state { OnOk result (draws.new.state ≡ after_add draws.old.state) }
{
    let kind = draws.draw(4);
    let element = draws.digit(8);
    match kind {
        0 => write_attribute_add(element, draws, out),
        1 => write_child_add(element, draws, out),
        2 => write_absence_add(element, draws, out),
        _ => write_choice_add(element, draws, out),
    }
}

// Writes the rest of an add for an element with an attribute.
fn write_attribute_add(element: u8, draws: &mut Draws, out: &mut Vec<u8>) -> Result<(), AllocError>
    ensures text { OnOk result (out.new.items ≡ out.old.items ++
        add_of 0 (element ∷ []) draws.old.state) }
    ensures state { OnOk result (draws.new.state ≡ after (further 0) draws.old.state) }
{
    let value = draws.digit(10);
    let line = [
        b'+', b'/', b'/', b'e', element, b'[', b'@', b'k', b'=', value, b']', b'\n',
    ];
    out.extend_from_slice(&line)
}

// Writes the rest of an add for an element with a child.
fn write_child_add(element: u8, draws: &mut Draws, out: &mut Vec<u8>) -> Result<(), AllocError>
    ensures text { OnOk result (out.new.items ≡ out.old.items ++
        add_of 1 (element ∷ []) draws.old.state) }
    ensures state { OnOk result (draws.new.state ≡ after (further 1) draws.old.state) }
{
    let child = draws.digit(8);
    let line = [
        b'+', b'/', b'r', b'/', b'e', element, b'/', b'e', child, b'\n',
    ];
    out.extend_from_slice(&line)
}

// Writes the rest of an add for an element without a child.
fn write_absence_add(element: u8, draws: &mut Draws, out: &mut Vec<u8>) -> Result<(), AllocError>
    ensures text { OnOk result (out.new.items ≡ out.old.items ++
        add_of 2 (element ∷ []) draws.old.state) }
    ensures state { OnOk result (draws.new.state ≡ after (further 2) draws.old.state) }
{
    let child = draws.digit(8);
    let line = [
        b'+', b'/', b'/', b'e', element, b'[', b'n', b'o', b't', b'(', b'e', child, b')', b']',
        b'\n',
    ];
    out.extend_from_slice(&line)
}

// Writes the rest of an add for an element with a text or an element below it.
fn write_choice_add(element: u8, draws: &mut Draws, out: &mut Vec<u8>) -> Result<(), AllocError>
    ensures text { OnOk result (out.new.items ≡ out.old.items ++
        add_of 3 (element ∷ []) draws.old.state) }
    ensures state { OnOk result (draws.new.state ≡ after (further 3) draws.old.state) }
{
    let value = draws.digit(10);
    let below = draws.digit(8);
    let line = [
        b'+', b'/', b'/', b'e', element, b'[', b't', b'e', b'x', b't', b'(', b')', b'>', value,
        b' ', b'o', b'r', b' ', b'.', b'/', b'/', b'e', below, b']', b'\n',
    ];
    out.extend_from_slice(&line)
}

// Writes so many documents, the first with the number 1, and the drops before them.
fn write_documents(
    filters: u32,
    count: u32,
    draws: &mut Draws,
    out: &mut Vec<u8>,
) -> Result<(), AllocError>
    ensures { OnOk result (out.new.items ≡ out.old.items ++
        documents filters count 1 draws.old.state) }
{
    for before in 0..count {
        write_drop(filters, before + 1, out)?;
        write_document(draws, out)?;
    }
    Ok(())
}

// Writes the drop before the document of this number, if there is one.
fn write_drop(filters: u32, number: u32, out: &mut Vec<u8>) -> Result<(), AllocError>
    ensures { OnOk result (out.new.items ≡ out.old.items ++ drop_before filters number) }
{
    let id = number / DROP_EVERY;
    if number % DROP_EVERY != 0 || id > filters {
        return Ok(());
    }
    let mut buffer = Buffer::new();
    out.push(b'~')?;
    out.extend_from_slice(buffer.format(id).as_bytes())?;
    out.push(b'\n')?;
    Ok(())
}

// Writes the next document.
fn write_document(draws: &mut Draws, out: &mut Vec<u8>) -> Result<(), AllocError>
    ensures text { OnOk result (out.new.items ≡ out.old.items ++ document draws.old.state) }
    ensures state { OnOk result (draws.new.state ≡ after 16 draws.old.state) }
{
    out.extend_from_slice(b"(r\n")?;
    write_groups(draws, out)?;
    out.extend_from_slice(b")r\n")
}

// Writes the groups of a document.
fn write_groups(draws: &mut Draws, out: &mut Vec<u8>) -> Result<(), AllocError>
    ensures text { OnOk result (out.new.items ≡ out.old.items ++ groups 4 draws.old.state) }
    ensures state { OnOk result (draws.new.state ≡ after 16 draws.old.state) }
{
    for _ in 0..GROUPS {
        write_group(draws, out)?;
    }
    Ok(())
}

// Writes the next group of a document.
fn write_group(draws: &mut Draws, out: &mut Vec<u8>) -> Result<(), AllocError>
    ensures text { OnOk result (out.new.items ≡ out.old.items ++ group draws.old.state) }
    ensures state { OnOk result (draws.new.state ≡ after 4 draws.old.state) }
{
    let outer = draws.digit(8);
    let value = draws.digit(10);
    let inner = draws.digit(8);
    let text = draws.digit(10);
    let lines = [
        b'(', b'e', outer, b'\n', b'A', b'k', b' ', value, b'\n', b'(', b'e', inner, b'\n', b'-',
        text, b'\n', b')', b'e', inner, b'\n', b')', b'e', outer, b'\n',
    ];
    out.extend_from_slice(&lines)
}
