// What becomes of a text: what it says, or why it is refused.
use model::{Refusal, Report, Span, Table};
use std::alloc::Global;

// The longest text that is shown.
const SHOWN: usize = 200;

fn tell_refusal(rt: &HostRuntime, refusal: Refusal) -> anyhow::Result<()> {
    let Report {
        number,
        layer,
        span,
    } = Report::from(refusal);
    let Span { at, len } = span;
    println!(rt; "  => refused {number} {layer} {at}, {len} long")?;
    Ok(())
}

fn tell_text(rt: &HostRuntime, text: &[u8]) -> anyhow::Result<()> {
    let n = text.len();
    if n > SHOWN {
        println!(rt; "{n} bytes")?;
        return Ok(());
    }
    for b in text {
        rt.print(*b as char)?;
    }
    println!(rt; "")?;
    Ok(())
}

// Whether a buffer that is a byte too short is refused with 16 and stays as it was.
fn refuses_short(heap: Global, table: &Table, n: usize) -> anyhow::Result<bool> {
    let mut short = vec![in heap; b'.'; n.saturating_sub(1)]?;
    let Err(refusal) = writer::write(table, short.as_mut_slice()) else {
        return Ok(false);
    };
    let kept = short.iter().all(|b| *b == b'.');
    Ok(kept && u8::from(refusal) == 16)
}

/// Prints the outcome, and for a program its size, its depth, its text, and whether that reads back as itself.
pub fn tell(
    rt: &HostRuntime,
    text: &[u8],
    table: &mut Table,
    again: &mut Table,
    out: &mut [u8],
) -> anyhow::Result<()> {
    if let Err(refusal) = text::read(text, table) {
        return tell_refusal(rt, refusal);
    }
    let size = table.size();
    let depth = table.depth();
    let Ok(n) = writer::write(table, out) else {
        println!(rt; "  => not written")?;
        return Ok(());
    };
    let Some(written) = out.get(0..n) else {
        println!(rt; "  => written past the end")?;
        return Ok(());
    };
    let back = text::read(written, again).is_ok() && again.same(table);
    let reads = if back && refuses_short(rt.alloc(), table, n)? {
        "reads back"
    } else {
        "is lost"
    };
    print!(rt; "  => size {size}, depth {depth}, {reads}: ")?;
    tell_text(rt, written)
}
