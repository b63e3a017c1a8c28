// Reads a schedule from standard input and prints, line by line, what is understood of it and what is refused.
#![tactic(auto)]

use std::io::Read;

fn main(rt: HostRuntime) -> anyhow::Result<()> {
    let heap = rt.alloc();
    let mut text = Vec::new(heap);
    rt.stdin()
        .take(formreport::read_limit())
        .read_to_end(&mut text)?;
    let account = formreport::account(heap, text.as_slice())?;
    rt.print(account.as_str())?;
    Ok(())
}
