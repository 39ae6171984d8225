// Prints the report of the Sectors on standard input (document 01, "The report").
#![tactic(auto)]

fn main(rt: HostRuntime) {
    let mut input = rt.stdin();
    reporting::report(&rt, &mut input);
}
