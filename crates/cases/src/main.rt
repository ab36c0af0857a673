// Reads a table of texts, one to a line, and prints what becomes of each.
#![tactic(auto)]

mod make;
mod tell;

use make::text_of_line;
use model::{MOST_BYTES, Table};
use tell::tell;

fn run(rt: &HostRuntime) -> anyhow::Result<()> {
    let heap = rt.alloc();
    let mut table = Table::new(heap)?;
    let mut again = Table::new(heap)?;
    let mut out = vec![in heap; 0u8; MOST_BYTES]?;
    for line in rt.lines(heap) {
        let line = line?;
        let text = text_of_line(heap, line.as_str())?;
        rt.print(line.as_str())?;
        tell(
            rt,
            text.as_slice(),
            &mut table,
            &mut again,
            out.as_mut_slice(),
        )?;
    }
    Ok(())
}

fn main(rt: HostRuntime) -> anyhow::Result<()> {
    run(&rt)
}
