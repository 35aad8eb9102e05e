ghost use Rattle.std.specs.Prelude.{◌≡◌, IfOk};

use graphql_text::{Items, Text};
use std::alloc::{AllocError, Global};

/// A type that holds itself through a list, alone and in pairs.
#[derive(PartialEq, Eq, Drop)]
enum Probe {
    Leaf(u8),
    Many(Items<Probe>),
    Named(Items<(Text, Probe)>),
}

impl Clone for Probe {
    ghost is_clone = { λ probe copy. copy ≡ probe };

    fn clone(&self) -> Result<Probe, AllocError> {
        copy_of(self)
    }
}

/// A second probe, the same.
fn copy_of(probe: &Probe) -> Result<Probe, AllocError>
    ensures { IfOk result (λ copy. copy ≡ probe.now) }
{
    match probe {
        Probe::Leaf(number) => Ok(Probe::Leaf(*number)),
        Probe::Many(parts) => {
            let mut copies = Items::new(*parts.allocator());
            for part in parts.as_slice() {
                copies.push(copy_of(part)?)?;
            }
            Ok(Probe::Many(copies))
        }
        Probe::Named(pairs) => {
            let mut copies = Items::new(*pairs.allocator());
            for pair in pairs {
                copies.push(pair_of(&pair.0, copy_of(&pair.1)?)?)?;
            }
            Ok(Probe::Named(copies))
        }
    }
}

/// A second name, the same, with this probe.
fn pair_of(name: &Text, probe: Probe) -> Result<(Text, Probe), AllocError>
    ensures { IfOk result (λ pair. pair ≡ (name.now, probe)) }
{
    Ok((name.clone()?, probe))
}

/// The leaf of a number, with a name.
fn leaf(alloc: Global, name: &str, number: u8) -> Result<(Text, Probe), AllocError> {
    Ok((Text::from_str(alloc, name)?, Probe::Leaf(number)))
}

/// Two leaves with names, and one without.
fn sample(alloc: Global) -> Result<Probe, AllocError> {
    let inner = vec![in alloc; leaf(alloc, "a", 3)?, leaf(alloc, "b", 9)?]?;
    let named = Probe::Named(Items::from_vec(inner));
    let outer = vec![in alloc; named, Probe::Leaf(4)]?;
    Ok(Probe::Many(Items::from_vec(outer)))
}

/// Whether a clone of the sample is equal to it.
fn is_copied(alloc: Global) -> Result<bool, AllocError> {
    let probe = sample(alloc)?;
    let copy = probe.clone()?;
    Ok(copy == probe)
}

#[test]
fn goes_down(rt: HostRuntime) {
    let is_copied = is_copied(rt.alloc()).expect(&rt, "memory");
    assert!(rt; is_copied);
}
