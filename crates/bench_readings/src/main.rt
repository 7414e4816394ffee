// The bench program, run on document 01's bench readings.
#![tactic(auto)]

fn main(rt: HostRuntime) {
    bench_run::main_loop(rt.stdin());
}
