// Runs the schedules that standard input names, one a line, on both memories, and holds what each prints, byte for
// byte, against the output that is stored for it. The stored outputs come from an independent model of the rules.
#![tactic(auto)]

fn main(rt: HostRuntime) -> anyhow::Result<()> {
    stored::run(rt)
}
