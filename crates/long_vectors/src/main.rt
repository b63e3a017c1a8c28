// As `vectors`, with the longer schedules: one that takes every row of the table of steps, one of 65,535 bytes, and one
// of a byte more.
#![tactic(auto)]

fn main(rt: HostRuntime) -> anyhow::Result<()> {
    stored::run(rt)
}
