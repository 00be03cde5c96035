// What the children of a layer have of a record.
ghost use Rattle.std.specs.Prelude.{◌≡◌, ◌∷◌, [], ◌++◌, map, not, true, false, get_or, IfOk, if◌then◌else◌, Some, None};
ghost use Rattle.gx_encode.specs.Forms.{changed};
ghost use Rattle.gx_split.specs.Groups.{chosen};
ghost use Rattle.gx_access.specs.Access.{tested, whole_view, flat, code_slot, is_free};
ghost use Rattle.gx_access.specs.Views.{room_below, coded_view, group_views, column_view, chooser_of};

use crate::access::{Chooser, Group, NestedGroups, Slots, Tested, View};
use crate::arrangement::Mask;
use gx_codec::Slot;
use gx_partition::Where;
use gx_values::{Code, Field, Fields, NoMemory};
use std::alloc::{AllocError, Global};

// ---- copies

impl Slots {
    fn copy(&self, alloc: Global) -> Result<Slots, NoMemory>
        ensures { IfOk result (λ copy. copy ≡ self.now) }
    {
        let mut copies = Vec::with_capacity(alloc, self.0.len())?;
        for slot in self.0.iter() {
            copies.push(*slot)?;
        }
        Ok(Slots(copies))
    }
}

impl Tested {
    fn copy(&self) -> Tested
        ensures { result ≡ self.now }
    {
        Tested {
            slot: self.slot,
            field: self.field.copy(),
        }
    }
}

impl Group {
    fn copy(&self, alloc: Global) -> Result<Group, NoMemory>
        ensures { IfOk result (λ copy. copy ≡ self.now) }
    {
        let mut copies = Vec::with_capacity(alloc, self.0.len())?;
        for tested in self.0.iter() {
            copies.push(tested.copy())?;
        }
        Ok(Group(copies))
    }
}

impl NestedGroups {
    fn copy(&self, alloc: Global) -> Result<NestedGroups, NoMemory>
        ensures { IfOk result (λ copy. copy ≡ self.now) }
    {
        let mut copies = Vec::with_capacity(alloc, self.0.len())?;
        for group in self.0.iter() {
            copies.push(group.copy(alloc)?)?;
        }
        Ok(NestedGroups(copies))
    }

    // The group, and then copies of these.
    fn below(&self, alloc: Global, group: Group) -> Result<NestedGroups, NoMemory>
        ensures { IfOk result (λ made. made ≡ group ∷ self.now) }
    {
        let mut groups = Vec::with_capacity(alloc, 1)?;
        groups.push(group)?;
        for other in self.0.iter() {
            groups.push(other.copy(alloc)?)?;
        }
        Ok(NestedGroups(groups))
    }
}

impl View {
    /// An equal view. `NoMemory`: there was none for it.
    pub(crate) fn copy(&self, alloc: Global) -> Result<View, NoMemory>
        ensures { IfOk result (λ copy. copy ≡ self.now) }
    {
        Ok(View {
            wraps: self.wraps,
            slots: self.slots.copy(alloc)?,
            groups: self.groups.copy(alloc)?,
        })
    }
}

// ---- views

/// All of so many data fields, each as it is. `NoMemory`: there was none for it.
pub(crate) fn whole_view(alloc: Global, count: usize) -> Result<View, NoMemory>
    ensures { IfOk result (λ view. view ≡ whole_view count) }
{
    let mut slots = Vec::with_capacity(alloc, count)?;
    for number in 0..count {
        slots.push(Slot { number, code: None })?;
    }
    Ok(flat(Slots(slots), NestedGroups(Vec::new(alloc))))
}

fn flat(slots: Slots, groups: NestedGroups) -> View
    ensures { result ≡ flat slots groups }
{
    View {
        wraps: 0,
        slots,
        groups,
    }
}

/// The view below a layer `actual`. `None`: there are too many above. `NoMemory`: there was none
/// for it.
pub(crate) fn room_below(alloc: Global, view: &View) -> Result<Option<View>, NoMemory>
    ensures { IfOk result (λ below. below ≡ room_below view.now) }
{
    if view.wraps == u16::MAX {
        return Ok(None);
    }
    let mut below = view.copy(alloc)?;
    below.wraps += 1;
    Ok(Some(below))
}

/// The view below a layer that has the field with the number by the code. `None`: the fields don't
/// stand alone there, or that one has a code already. `NoMemory`: there was none for it.
pub(crate) fn coded_view(
    alloc: Global,
    view: &View,
    number: usize,
    code: Code,
) -> Result<Option<View>, NoMemory>
    ensures { IfOk result (λ below. below ≡ coded_view number code view.now) }
{
    if view.wraps != 0 || !is_free(number, &view.slots) {
        return Ok(None);
    }
    let slots = with_code(view.slots.copy(alloc)?, number, code);
    Ok(Some(flat(slots, view.groups.copy(alloc)?)))
}

// Whether the slot with the number, if there is one, has no code.
fn is_free(number: usize, slots: &Slots) -> bool
    ensures { result ≡ is_free number slots.now }
{
    if number < slots.0.len() {
        slots.0[number].code.is_none()
    } else {
        true
    }
}

// The slots, with the code at the one with the number, if there is one.
fn with_code(slots: Slots, number: usize, code: Code) -> Slots
    ensures { result ≡ changed number (code_slot code) slots }
{
    let mut slots = slots;
    if number < slots.0.len() {
        slots.0[number] = code_slot(code, slots.0[number]);
    }
    slots
}

fn code_slot(code: Code, slot: Slot) -> Slot
    ensures { result ≡ code_slot code slot }
{
    Slot {
        number: slot.number,
        code: Some(code),
    }
}

/// The views of the two groups of a segment, by the marks of the first and the fields of the form.
/// `None`: the fields don't stand alone there. `NoMemory`: there was none for them.
pub(crate) fn group_views(
    alloc: Global,
    mask: &Mask,
    fields: &Fields,
    view: &View,
) -> Result<Option<(View, View)>, NoMemory>
    ensures { IfOk result (λ views. views ≡ group_views mask.now fields.now view.now) }
{
    if view.wraps != 0 {
        return Ok(None);
    }
    let first = chosen_slots(alloc, mask, &view.slots)?;
    let first = flat(first, view.groups.copy(alloc)?);
    let other_mask = inverted(alloc, mask)?;
    let group = chosen_fields(alloc, &other_mask, fields, &view.slots)?;
    let others = chosen_slots(alloc, &other_mask, &view.slots)?;
    let others = flat(others, view.groups.below(alloc, group)?);
    Ok(Some((first, others)))
}

fn inverted(alloc: Global, mask: &Mask) -> Result<Mask, NoMemory>
    ensures { IfOk result (λ made. made ≡ map not mask.now) }
{
    let mut others = Vec::with_capacity(alloc, mask.0.len())?;
    for is_chosen in mask.0.iter() {
        others.push(!*is_chosen)?;
    }
    Ok(Mask(others))
}

// The slots that the mask chooses.
fn chosen_slots(alloc: Global, mask: &Mask, slots: &Slots) -> Result<Slots, NoMemory>
    ensures { IfOk result (λ made. made ≡ chosen mask.now slots.now) }
{
    let mut made = Vec::new(alloc);
    for (i, slot) in slots.0.iter().enumerate() {
        push_slot(&mut made, is_chosen(mask, i), *slot)?;
    }
    Ok(Slots(made))
}

fn push_slot(made: &mut Vec<Slot>, is_chosen: bool, slot: Slot) -> Result<(), AllocError>
    ensures { IfOk result (λ _. made.new.items ≡ made.old.items
        ++ (if is_chosen then slot ∷ [] else [])) }
{
    if is_chosen {
        made.push(slot)?;
    }
    Ok(())
}

// The fields that the mask chooses, with their slots.
fn chosen_fields(
    alloc: Global,
    mask: &Mask,
    fields: &Fields,
    slots: &Slots,
) -> Result<Group, NoMemory>
    ensures { IfOk result (λ made. made ≡ chosen mask.now (tested fields.now slots.now)) }
{
    let all = tested_fields(alloc, fields, slots)?;
    let mut made = Vec::new(alloc);
    for (i, tested) in all.0.iter().enumerate() {
        push_tested(&mut made, is_chosen(mask, i), tested)?;
    }
    Ok(Group(made))
}

fn push_tested(made: &mut Vec<Tested>, is_chosen: bool, tested: &Tested) -> Result<(), AllocError>
    ensures { IfOk result (λ _. made.new.items ≡ made.old.items
        ++ (if is_chosen then tested.now ∷ [] else [])) }
{
    if is_chosen {
        made.push(tested.copy())?;
    }
    Ok(())
}

// The fields with their slots.
fn tested_fields(alloc: Global, fields: &Fields, slots: &Slots) -> Result<Group, NoMemory>
    ensures { IfOk result (λ made. made ≡ tested fields.now slots.now) }
{
    let mut made = Vec::new(alloc);
    let mut left = slots.0.as_slice();
    for field in fields.0.iter() {
        let [slot, others @ ..] = left else {
            return Ok(Group(made));
        };
        made.push(tested(*slot, field))?;
        left = others;
    }
    Ok(Group(made))
}

fn tested(slot: Slot, field: &Field) -> Tested
    ensures { result ≡ record { slot = slot; field = field.now } }
{
    Tested {
        slot,
        field: field.copy(),
    }
}

// Whether the mask has a mark at the number.
fn is_chosen(mask: &Mask, number: usize) -> bool
    ensures { result ≡ get_or mask.now number false }
{
    number < mask.0.len() && mask.0[number]
}

/// The view of one field alone. `NoMemory`: there was none for it.
pub(crate) fn column_view(alloc: Global, slot: Slot, view: &View) -> Result<View, NoMemory>
    ensures { IfOk result (λ column. column ≡ column_view slot view.now) }
{
    let mut slots = Vec::with_capacity(alloc, 1)?;
    slots.push(slot)?;
    Ok(flat(Slots(slots), view.groups.copy(alloc)?))
}

/// The field of the record by which a partition chooses that has this view of it. `None`: it is a
/// data field, and these don't stand alone there.
pub(crate) fn chooser_of(at: Where, view: &View) -> Option<Chooser>
    ensures { result ≡ chooser_of at view.now }
{
    match at {
        Where::Key(i) => Some(Chooser::OfKey(i)),
        Where::Rest(i) => {
            let number = usize::from(i);
            if view.wraps == 0 && number < view.slots.0.len() {
                Some(Chooser::OfData(view.slots.0[number]))
            } else {
                None
            }
        }
    }
}
