// The bench program, run on short random histories over m of 1, 4, 31, 32, 33, 4,095 and 4,096, one after the other.
#![tactic(auto)]

fn main(rt: HostRuntime) {
    bench_run::main_loop(rt.stdin());
}
