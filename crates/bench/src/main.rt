// The bench program, run on document 01's example.
#![tactic(auto)]

fn main(rt: HostRuntime) {
    bench_run::main_loop(rt.stdin());
}
