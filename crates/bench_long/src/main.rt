// The bench program, run on a random history of 60,000 lines.
#![tactic(auto)]

fn main(rt: HostRuntime) {
    bench_run::main_loop(rt.stdin());
}
