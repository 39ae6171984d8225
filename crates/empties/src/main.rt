// Prints the addresses of the empty Sectors on standard input (document 02, §13).
#![tactic(auto)]

fn main(rt: HostRuntime) {
    let mut input = rt.stdin();
    empty_sectors::print_addresses(&rt, &mut input);
}
