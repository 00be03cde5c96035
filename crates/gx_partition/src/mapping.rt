// The layer's mapping.
ghost use Rattle.std.specs.Prelude.{◌≡◌, ℕ, IfSome, IfNone};
ghost use Rattle.gx_mapping.specs.Rule.{IsOf};
ghost use Rattle.gx_mapping.specs.Searched.{IsAlone};
ghost use Rattle.gx_partition.specs.declared.place.Where.TheVariants as place;
ghost use Rattle.gx_partition.specs.Places.{value_at};
ghost use Rattle.gx_partition.specs.Bounds.{child_of};
ghost use Rattle.gx_partition.specs.Rules.{form_of, at_of, bounds_of, whole_of, rule_of};
ghost use Rattle.gx_partition.specs.Laws.{partition_laws};

use crate::layer::Partition;
use crate::place::{Where, value_of};
use crate::ranges::{begins_after, child_of, ends_before, first_from, lower_of, upper_of};
use gx_mapping::{Mapping, Part, Parts, Whole, has_field};
use gx_values::{Form, Name, NoMemory, Rec, Span, Values};
use std::alloc::Global;

impl Mapping for Partition {
    ghost rule = { λ m. rule_of m };

    ghost laws = { λ m. partition_laws m.form m.at m.bounds m.sound };

    fn kids(&self) -> u16 {
        self.bounds.0.len() as u16 + 1
    }

    fn form(&self) -> &Form {
        &self.form
    }

    fn kid_form(&self, _child: u16) -> &Form {
        &self.form
    }

    fn holds_rest(&self, _child: u16) -> bool {
        true
    }

    fn parts(&self, alloc: Global, rec: &Rec) -> Result<Parts, NoMemory> {
        let child = self.child_for(rec);
        let rec = rec.copy(alloc)?;
        Parts::one(alloc, Part { child, rec })
    }

    fn as_whole(&self, alloc: Global, rec: &Rec) -> Result<Option<Whole>, NoMemory> {
        let others = Parts(Vec::new(alloc));
        Ok(Some(Whole {
            child: self.child_for(rec),
            others,
        }))
    }

    fn gather(&self, alloc: Global, _key: &Values, parts: &Parts) -> Result<Option<Rec>, NoMemory> {
        match parts.0.as_slice() {
            [part] => {
                let rec = part.rec.copy(alloc)?;
                let child = part.child;
                Ok(self.whole(Part { child, rec }))
            }
            _ => Ok(None),
        }
    }

    fn gather_one(&self, _alloc: Global, part: Part) -> Result<Option<Rec>, NoMemory> {
        Ok(self.whole(part))
    }

    fn is_own_part(&self, child: u16, rec: &Rec) -> bool {
        self.child_for(rec) == child
    }

    fn skips(&self, child: u16, span: &Span) -> bool {
        match self.at {
            Where::Key(0) => {
                ends_before(upper_of(&self.bounds, child), &span.lo)
                    || begins_after(lower_of(&self.bounds, child), &span.hi)
            }
            _ => false,
        }
    }

    fn only_searched(&self, span: &Span) -> Option<u16> {
        match self.at {
            Where::Key(0) => self.only_by_key(span),
            _ => self.bounds.0.is_empty().then_some(0),
        }
    }

    fn indexes(&self, _field: &Name) -> Option<u16> {
        None
    }

    fn carries(&self, _child: u16, field: &Name) -> bool {
        has_field(&self.form.fields, field)
    }
}

impl Partition {
    /// Where the field stands by whose value records go to children.
    pub fn place(&self) -> Where
        ensures { result ≡ at_of self.now }
    {
        self.at
    }

    /// The ascending values between children: child `i` has the values from bound `i - 1` on and
    /// below bound `i`.
    pub fn bounds(&self) -> &Values
        ensures { result.now ≡ bounds_of self.now }
    {
        &self.bounds
    }

    // The child that the record goes to.
    fn child_for(&self, rec: &Rec) -> u16
        requires { IsOf (form_of self.now) rec.now }
        ensures { result ≡ child_of (bounds_of self.now) (value_at (at_of self.now) rec.now) }
    {
        child_of(&self.bounds, value_of(self.at, rec))
    }

    // The one child that is searched, where the field is the first of the key.
    fn only_by_key(&self, span: &Span) -> Option<u16>
        requires { at_of self.now ≡ place.Key 0 }
        ensures alone { IfSome result (IsAlone (rule_of self.now) span.now) }
        ensures none { IfNone result ((c : ℕ) → ¬ IsAlone (rule_of self.now) span.now c) }
    {
        let child = first_from(&self.bounds, &span.lo);
        if begins_after(lower_of(&self.bounds, child), &span.hi) {
            return None;
        }
        let Some(upper) = upper_of(&self.bounds, child) else {
            return Some(child);
        };
        if begins_after(Some(upper), &span.hi) {
            Some(child)
        } else {
            None
        }
    }

    // The record of the part, where its value belongs to the part's child.
    fn whole(&self, part: Part) -> Option<Rec>
        requires { IsOf (form_of self.now) part.rec }
        ensures { result ≡ whole_of (at_of self.now) (bounds_of self.now) part }
    {
        if self.child_for(&part.rec) == part.child {
            Some(part.rec)
        } else {
            None
        }
    }
}
