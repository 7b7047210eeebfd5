// Runs the steps of its input through the engine: the sizes, a policy's kinds, first and second entries, each list after
// its length, then a state, as its four quarters, and a packet. It writes the packets of the output, and each packet with the state next there.
#![tactic(auto)]

ghost use Rattle.std.specs.Prelude.{◌≡◌, IfOk};
ghost use Rattle.packet.specs.Sizes.{product, LegalSizes};
ghost use Rattle.policy.specs.AsLists.{lists_of};
ghost use Rattle.policy.specs.Legality.{Legal};

use engine::LoadedPolicy;
use harness::{Entry, Input};
use marks::Next;
use packet::Refusal;
use packet_set::{Mask, PacketWords};
use policy::lent::PolicyLists;
use spans::Span;
use std::io::Stdout;

fn output(stdout: Stdout, set: &PacketWords) {
    let mut from = 0;
    while let Some(packet) = packet_set::next_member(set, from, 32) {
        harness::space(stdout);
        harness::number(stdout, u64::from(packet));
        from = packet + 1;
    }
}

fn states(stdout: Stdout, next: &Next) {
    for (packet, state) in next[..1024].iter().enumerate() {
        if *state != 0 {
            harness::space(stdout);
            harness::number(stdout, packet as u64);
            harness::write(stdout, b":");
            harness::number(stdout, *state);
        }
    }
}

// The packet count of sizes over which a policy is legal, or the first cause.
fn tested(sizes: &[u16], policy: PolicyLists) -> Result<u16, Refusal>
    ensures { IfOk result (λ count. LegalSizes sizes.now × Legal sizes.now (lists_of policy.entry) × (count ≡ product sizes.now)) }
{
    packet::fields_stage(sizes)?;
    let count = packet::packet_count(sizes)?;
    legality::policy_stage(sizes, 0, policy)?;
    Ok(count)
}

fn step(stdout: Stdout, sizes: &[u16], policy: PolicyLists, state: Mask, packet: u16) {
    let Ok(count) = tested(sizes, policy) else {
        harness::write(stdout, b"refused\n");
        return;
    };
    if count <= packet {
        harness::write(stdout, b"no packet\n");
        return;
    }
    let mut nodes = [0; 576];
    let mut tests = [0; 8224];
    loaded::load(sizes, count, policy, &mut nodes, &mut tests);
    let policy = LoadedPolicy {
        sizes,
        nodes: &nodes,
        tests: &tests,
    };
    let mut out = packet_set::empty();
    let mut next = [0; 1056];
    let mut work = [0; 16384];
    engine::step(
        &policy,
        state,
        packet,
        Span { from: 0, to: 0 },
        &mut out,
        &mut next,
        &mut work,
    );
    harness::write(stdout, b"output");
    output(stdout, &out);
    harness::write(stdout, b", next");
    states(stdout, &next);
    harness::line_end(stdout);
}

fn one_case(stdout: Stdout, input: &mut Input) {
    let mut sizes = [0; 16];
    let mut kind = [0; 520];
    let mut first = [0; 520];
    let mut second = [0; 520];
    let sizes = input.scan_list(&mut sizes);
    let policy = PolicyLists {
        kind: input.scan_list(&mut kind),
        first: input.scan_list(&mut first),
        second: input.scan_list(&mut second),
    };
    let state = Mask::scan(input);
    let packet = u16::scan(input);
    step(stdout, sizes, policy, state, packet);
}

fn run(stdout: Stdout, bytes: &[u8]) {
    let mut input = Input { rest: bytes };
    for _ in 0..bytes.len() {
        if !input.next_digit() {
            return;
        }
        one_case(stdout, &mut input);
    }
}

fn main(rt: HostRuntime) {
    let mut input = [0; 65536];
    run(rt.stdout(), harness::read_full(rt.stdin(), &mut input));
}
