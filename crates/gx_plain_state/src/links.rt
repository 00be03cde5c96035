// Pairs of a member and its owner, and links of them in the order of the members.
ghost use Rattle.std.specs.Prelude.{◌≡◌, ◌≤◌, filter, length, not, IfOk, OnOk, OnErr};
ghost use Rattle.std.specs.List.{prefix_len, list_any};
ghost use Rattle.std.specs.Option.{option_map};
ghost use Rattle.std.specs.Ordering.{eq_by_cmp, is_gt};
ghost use Rattle.std.specs.FinMap as fin;
ghost use Rattle.gx_values.specs.Values.{value_cmp};
ghost use Rattle.gx_model.specs.States.{is_same, pairs_of};

use gx_values::{NoMemory, Value, compare};
use std::alloc::Global;
use std::marker::Model;

/// The key of a member, and that of its owner.
#[derive(Debug, Drop)]
pub struct Pair {
    pub member: Value,
    pub owner: Value,
}

impl Model for Pair {
    ghost use Rattle.gx_values.specs.declared.values.Value.{Value as FieldValue};

    ghost Value = { FieldValue × FieldValue };

    ghost view = { λ p. (p.member, p.owner) };
}

impl Pair {
    /// An equal pair.
    pub fn copy(&self, alloc: Global) -> Result<Pair, NoMemory>
        ensures { IfOk result (λ copy. copy ≡ self.now) }
    {
        Ok(Pair {
            member: self.member.copy(alloc)?,
            owner: self.owner.copy(alloc)?,
        })
    }
}

/// A link: its pairs, each member once, in ascending order.
#[derive(Debug, Drop)]
pub struct PlainLink {
    pairs: Vec<Pair>,
}

impl Model for PlainLink {
    ghost use Rattle.std.specs.Prelude.{T};
    ghost use Rattle.std.specs.FinMap as fin;
    ghost use Rattle.std.specs.Coded.{codes};
    ghost use Rattle.gx_values.specs.Values.{value_cmp};
    ghost use Rattle.gx_model.specs.States.{Link};
    ghost use Rattle.gx_plain_state.specs.Codes.{coded_link};

    ghost Value = { Link };

    ghost coded = { Prim.hlevel (codes, coded_link) };

    ghost view = { λ l. fin.from_sorted l.pairs.items };

    ghost invariant = { λ l. T (fin.is_sorted value_cmp l.pairs.items) };
}

impl PlainLink {
    /// A link without pairs.
    pub fn new(alloc: Global) -> PlainLink
        ensures { result ≡ fin.empty }
    {
        PlainLink {
            pairs: Vec::new(alloc),
        }
    }

    /// The pairs, in the order of the members.
    pub fn pairs(&self) -> &[Pair]
        ensures { result.now ≡ fin.entries self.now }
    {
        &self.pairs
    }

    /// The owner of a member, where it has one.
    pub fn get(&self, member: &Value) -> Option<&Value>
        ensures { option_map (λ owner. owner.now) result ≡ fin.get self.now member.now }
    {
        find_owner(&self.pairs, member)
    }

    /// Gives the pair's member its owner.
    pub fn insert(&mut self, pair: Pair) -> Result<(), NoMemory>
        ensures { OnOk result (self.new ≡ fin.insert self.old pair.0 pair.1) }
    {
        put_pair(&mut self.pairs, pair)
    }

    /// Takes the pair of a member away, if there is one.
    pub fn remove(&mut self, member: &Value)
        ensures { self.new ≡ fin.remove self.old member.now }
    {
        remove_pair(&mut self.pairs, member);
    }

    /// An equal link.
    pub fn copy(&self, alloc: Global) -> Result<PlainLink, NoMemory>
        ensures { IfOk result (λ copy. copy ≡ self.now) }
    {
        let pairs = copy_pairs(alloc, &self.pairs)?;
        Ok(PlainLink { pairs })
    }

    /// Whether some member has this owner.
    pub fn has_owner(&self, owner: &Value) -> bool
        ensures { result ≡ list_any (λ pair. is_same pair.1 owner.now) (fin.entries self.now) }
    {
        self.pairs().iter().any(|pair| is_same(&pair.owner, owner))
    }

    /// How many members have this owner.
    pub fn members(&self, owner: &Value) -> usize
        ensures { result ≡ length (pairs_of self.now owner.now) }
    {
        self.pairs()
            .iter()
            .filter(|pair| is_same(&pair.owner, owner))
            .count()
    }
}

/// Whether two values are one.
pub fn is_same(a: &Value, b: &Value) -> bool
    ensures { result ≡ is_same a.now b.now }
{
    compare(a, b).is_eq()
}

fn find_owner<'a>(pairs: &'a [Pair], member: &Value) -> Option<&'a Value>
    ensures { option_map (λ owner. owner.now) result
        ≡ fin.find value_cmp member.now pairs.now }
{
    let mut rest = pairs;
    while let [first, after @ ..] = rest {
        if compare(member, &first.member).is_eq() {
            return Some(&first.owner);
        }
        rest = after;
    }
    None
}

// How many pairs stand before the place of a member.
fn place_of(pairs: &[Pair], member: &Value) -> usize
    ensures value { result ≡ prefix_len (λ p. is_gt (value_cmp member.now p.0)) pairs.now }
    ensures within { result ≤ length pairs.now }
{
    let mut rest = pairs;
    while let [first, after @ ..] = rest {
        if !compare(member, &first.member).is_gt() {
            return pairs.len() - rest.len();
        }
        rest = after;
    }
    pairs.len()
}

fn put_pair(pairs: &mut Vec<Pair>, pair: Pair) -> Result<(), NoMemory>
    ensures ok { OnOk result (pairs.new.items ≡ fin.put value_cmp pair.0 pair.1 pairs.old.items) }
    ensures err { OnErr result (pairs.new.items ≡ pairs.old.items) }
{
    let at = place_of(pairs, &pair.member);
    if at < pairs.len() && compare(&pair.member, &pairs[at].member).is_eq() {
        pairs[at] = pair;
        return Ok(());
    }
    pairs.insert(at, pair)?;
    Ok(())
}

fn remove_pair(pairs: &mut Vec<Pair>, member: &Value)
    ensures { pairs.new.items
        ≡ filter (λ p. not (eq_by_cmp value_cmp member.now p.0)) pairs.old.items }
{
    pairs.retain(|pair| !compare(member, &pair.member).is_eq());
}

fn copy_pairs(alloc: Global, pairs: &[Pair]) -> Result<Vec<Pair>, NoMemory>
    ensures { IfOk result (λ copies. copies.items ≡ pairs.now) }
{
    let mut copies = Vec::new(alloc);
    for pair in pairs {
        copies.push(pair.copy(alloc)?)?;
    }
    Ok(copies)
}
