//! Names released in and out of order, refused allocations, and certificates with reserved space.

ghost use Rattle.std.specs.Prelude.{◌≡◌, ◌<◌, ◌≤◌, IfSome};

use std::alloc::{Allocator, Global};
use urb_fifo::Fifo;
use urb_names::{Config, Name, NodeId};
use urb_refusing::Refusing;

/// A call of a `Fifo`, with the sender and the number of its name.
#[derive(Clone, Copy)]
enum Step {
    Reserve(u8, u32),
    /// Certifies the name. The last number is how many names this releases.
    Certify(u8, u32, u32),
}

/// Calls, and the expected state afterwards.
#[derive(Clone, Copy)]
struct Script<'a> {
    steps: &'a [Step],
    /// Further steps, after `steps`. They must not allocate.
    calm: &'a [Step],
    log: &'a [(u8, u32)],
    /// The number of released names of each sender.
    counts: &'a [(u8, u32)],
}

fn name(sender: u8, seq: u32) -> Option<Name>
    requires { 0 < seq }
    ensures { IfSome result (λ name. name ≡ record { sender = sender; seq = seq }) }
{
    let sender = NodeId::new(sender)?;
    Some(Name { sender, seq })
}

fn config() -> Option<Config>
    ensures { IfSome result (λ config. config ≡ record { n = 3; cap = 40 }) }
{
    Config::new(3, 40)
}

// Reserves space for a name. If an allocation is refused, checks that nothing has changed, and
// tries again. Returns whether it was refused, or `None` if a check fails.
fn reserve<A: Allocator + Copy>(fifo: &mut Fifo<A>, name: Name) -> Option<bool>
    requires sender { name.sender ≤ fifo.old.limits.n }
    requires seq { name.seq ≤ fifo.old.limits.cap }
    ensures { fifo.new.limits ≡ fifo.old.limits }
{
    let (logged, certified) = (fifo.log().len(), fifo.is_certified(name));
    if fifo.reserve(name).is_ok() {
        return Some(false);
    }
    if fifo.log().len() != logged || fifo.is_certified(name) != certified {
        return None;
    }
    if fifo.reserve(name).is_ok() {
        Some(true)
    } else {
        None
    }
}

// Certifies a name, in the same way. Returns how many names it releases, and whether a call was
// refused.
fn certify<A: Allocator + Copy>(fifo: &mut Fifo<A>, certificate: Name) -> Option<(u32, bool)>
    requires sender { certificate.sender ≤ fifo.old.limits.n }
    requires seq { certificate.seq ≤ fifo.old.limits.cap }
    ensures { fifo.new.limits ≡ fifo.old.limits }
{
    let logged = fifo.log().len();
    if let Ok(released) = fifo.certify(certificate) {
        return Some((released, false));
    }
    if fifo.log().len() != logged || fifo.is_certified(certificate) {
        return None;
    }
    match fifo.certify(certificate) {
        Ok(released) => Some((released, true)),
        Err(_) => None,
    }
}

// Performs a step for its name. Returns whether a call was refused, or `None` if a number differs.
fn is_step_refused<A: Allocator + Copy>(fifo: &mut Fifo<A>, step: Step, name: Name) -> Option<bool>
    requires sender { name.sender ≤ fifo.old.limits.n }
    requires seq { name.seq ≤ fifo.old.limits.cap }
    ensures { fifo.new.limits ≡ fifo.old.limits }
{
    let Step::Certify(_, _, want) = step else {
        return reserve(fifo, name);
    };
    let (released, refused) = certify(fifo, name)?;
    if released == want && fifo.is_certified(name) {
        Some(refused)
    } else {
        None
    }
}

// The sender and the number of a step's name.
fn parts_of(step: Step) -> (u8, u32) {
    match step {
        Step::Reserve(sender, seq) => (sender, seq),
        Step::Certify(sender, seq, _) => (sender, seq),
    }
}

// The step's name, or `None` if the group has no such name.
fn name_of(step: Step) -> Option<Name>
    ensures { IfSome result (λ name. (name.sender ≤ 3) × (name.seq ≤ 40)) }
{
    let (sender, seq) = parts_of(step);
    if sender > 3 || seq == 0 || seq > 40 {
        return None;
    }
    name(sender, seq)
}

// Performs steps one after the other.
fn is_refused_in<A: Allocator + Copy>(fifo: &mut Fifo<A>, steps: &[Step]) -> Option<bool>
    requires { fifo.old.limits ≡ record { n = 3; cap = 40 } }
    ensures { fifo.new.limits ≡ fifo.old.limits }
{
    let mut refused = false;
    for step in steps {
        let named = name_of(*step)?;
        refused |= is_step_refused(fifo, *step, named)?;
    }
    Some(refused)
}

// Whether the log has exactly these names.
fn has_log<A: Allocator + Copy>(fifo: &Fifo<A>, names: &[(u8, u32)]) -> bool {
    let log = fifo.log();
    if log.len() != names.len() {
        return false;
    }
    for (name, (sender, seq)) in log.iter().zip(names.iter()) {
        if name.sender.number() != *sender || name.seq != *seq {
            return false;
        }
    }
    true
}

// Whether each sender has exactly the given number of released names, and its next name is not
// certified.
fn has_counts<A: Allocator + Copy>(fifo: &Fifo<A>, counts: &[(u8, u32)]) -> bool {
    for (sender, count) in counts {
        match name(*sender, count.saturating_add(1)) {
            Some(next) if fifo.count(next.sender) == *count && !fifo.is_certified(next) => {}
            _ => return false,
        }
    }
    true
}

// Plays a script. Returns whether a call was refused, or `None` if the outcome is not the expected
// one.
fn is_refused<A: Allocator + Copy>(
    alloc: A,
    heap: &Refusing<Global>,
    script: Script,
) -> Option<bool> {
    let config = config()?;
    let mut fifo = Fifo::new(alloc, config);
    let refused = is_refused_in(&mut fifo, script.steps);
    let asked = heap.growths();
    let again = is_refused_in(&mut fifo, script.calm);
    let is_calm = heap.growths() == asked;
    let is_told = has_log(&fifo, script.log) && has_counts(&fifo, script.counts);
    drop(fifo);
    if is_calm && is_told {
        Some(refused? || again?)
    } else {
        None
    }
}

// The same while allocation (growth) number `refused` is refused, or none if that is 0. Also `None`
// if another call was refused.
fn play(alloc: Global, refused: u64, script: Script) -> Option<bool> {
    let heap = Refusing::new(alloc, refused);
    let told = is_refused(&heap, &heap, script);
    let met = heap.has_failed();
    drop(heap);
    if told == Some(met) { told } else { None }
}

#[test]
fn a_name_waits_for_the_lower_numbers(rt: HostRuntime) {
    let script = Script {
        steps: &[
            Step::Certify(1, 2, 0),
            Step::Certify(2, 1, 1),
            Step::Certify(1, 1, 2),
            Step::Certify(1, 1, 0),
        ],
        calm: &[],
        log: &[(2, 1), (1, 1), (1, 2)],
        counts: &[(1, 2), (2, 1), (3, 0)],
    };
    assert_eq!(rt; play(rt.alloc(), 0, script), Some(false));
}

#[test]
fn the_log_follows_the_certificates(rt: HostRuntime) {
    let tables: [(&[Step], &[(u8, u32)]); 3] = [
        (&[], &[]),
        (
            &[Step::Certify(1, 2, 0), Step::Certify(1, 1, 2)],
            &[(1, 1), (1, 2)],
        ),
        (
            &[Step::Certify(2, 1, 1), Step::Certify(1, 1, 1)],
            &[(2, 1), (1, 1)],
        ),
    ];
    for (steps, log) in tables {
        let script = Script {
            steps,
            calm: &[],
            log,
            counts: &[],
        };
        assert_eq!(rt; play(rt.alloc(), 0, script), Some(false));
    }
}

#[test]
fn what_was_reserved_takes_no_memory(rt: HostRuntime) {
    let script = Script {
        steps: &[
            Step::Certify(1, 2, 0),
            Step::Certify(1, 3, 0),
            Step::Certify(1, 4, 0),
            Step::Certify(1, 5, 0),
            Step::Reserve(1, 1),
        ],
        calm: &[Step::Certify(1, 1, 5), Step::Certify(1, 1, 0)],
        log: &[(1, 1), (1, 2), (1, 3), (1, 4), (1, 5)],
        counts: &[(1, 5)],
    };
    assert_eq!(rt; play(rt.alloc(), 0, script), Some(false));
}

#[test]
fn each_growth_may_be_refused(rt: HostRuntime) {
    let script = Script {
        steps: &[
            Step::Reserve(1, 1),
            Step::Certify(1, 2, 0),
            Step::Certify(1, 1, 2),
            Step::Certify(1, 5, 0),
            Step::Certify(1, 3, 1),
            Step::Certify(1, 6, 0),
            Step::Certify(1, 4, 3),
        ],
        calm: &[],
        log: &[(1, 1), (1, 2), (1, 3), (1, 4), (1, 5), (1, 6)],
        counts: &[(1, 6)],
    };
    let mut most = 0;
    for refused in 1..12 {
        let told = play(rt.alloc(), refused, script);
        assert!(rt; told.is_some());
        if told == Some(true) {
            most = refused;
        }
    }
    assert!(rt; 2 <= most, "a growth was refused");
}

/// An order of the numbers 1 to 40.
#[derive(Clone, Copy)]
enum Order {
    Rising,
    Falling,
    OddFirst,
}

// The certificate at this place of the order, from 0, and how many names it releases.
fn step_in(order: Order, place: u32) -> Step
    requires { place < 40 }
{
    match order {
        Order::Rising => Step::Certify(2, place + 1, 1),
        Order::Falling => Step::Certify(2, 40 - place, if place == 39 { 40 } else { 0 }),
        Order::OddFirst if place < 20 => {
            Step::Certify(2, 2 * place + 1, if place == 0 { 1 } else { 0 })
        }
        Order::OddFirst => Step::Certify(2, 2 * place - 38, if place == 39 { 1 } else { 2 }),
    }
}

#[test]
fn forty_names_are_released_in_their_order(rt: HostRuntime) {
    for order in [Order::Rising, Order::Falling, Order::OddFirst] {
        let mut steps = [Step::Certify(2, 1, 1); 40];
        let mut log = [(2u8, 1u32); 40];
        for place in 0..40u32 {
            steps[place as usize] = step_in(order, place);
            log[place as usize] = (2, place + 1);
        }
        let script = Script {
            steps: &steps,
            calm: &[],
            log: &log,
            counts: &[(1, 0), (2, 40)],
        };
        assert_eq!(rt; play(rt.alloc(), 0, script), Some(false));
    }
}
