// Records under `partition`: the children that they go to, and that they are gathered from.
ghost use Rattle.std.specs.Prelude.{◌≡◌, ◌<◌, ◌∷◌, [], IfOk};
ghost use Rattle.gx_values.specs.declared.values.Value.TheVariants as value;
ghost use Rattle.gx_values.specs.declared.values.Kind.TheVariants as kind;
ghost use Rattle.gx_mapping.specs.Rule.{IsOf};
ghost use Rattle.gx_partition.specs.Rules.{form_of, rule_of};

use gx_mapping::{Mapping, Part, Parts, has_field};
use gx_partition::{Partition, Where, partition};
use gx_values::{Field, Fields, Form, Kind, Name, NoMemory, Rec, Span, Value, Values, value_key};
use std::alloc::Global;
use std::test::Fail;

fn pair_form(alloc: Global) -> Result<Form, NoMemory>
    ensures keys { IfOk result
        (λ form. form.keys ≡ record { name = 107 ∷ []; kind = kind.Int } ∷ []) }
    ensures fields { IfOk result
        (λ form. form.fields ≡ record { name = 118 ∷ []; kind = kind.Int } ∷ []) }
{
    let key = Field {
        name: Name::from_slice(b"k"),
        kind: Kind::Int,
    };
    let field = Field {
        name: Name::from_slice(b"v"),
        kind: Kind::Int,
    };
    Ok(Form {
        keys: Fields(vec![in alloc; key]?),
        fields: Fields(vec![in alloc; field]?),
    })
}

fn pair(alloc: Global, key: i64, field: i64) -> Result<Rec, NoMemory>
    ensures key { IfOk result (λ r. r.key ≡ value.Int key ∷ []) }
    ensures fields { IfOk result (λ r. r.fields ≡ value.Int field ∷ []) }
{
    Ok(Rec {
        key: Values(vec![in alloc; Value::Int(key)]?),
        fields: Values(vec![in alloc; Value::Int(field)]?),
    })
}

#[test]
fn records_go_by_their_keys(rt: HostRuntime) -> Result<(), Fail> {
    let alloc = rt.alloc();
    let form = pair_form(alloc)?;
    let bounds = Values(vec![in alloc; Value::Int(10), Value::Int(20)]?);
    let layer = partition(alloc, &form, Where::Key(0), &bounds)?;
    assert!(rt; layer.kids() == 3);
    for (key, want) in [(9, 0), (10, 1), (19, 1), (20, 2)] {
        let parts = layer.parts(alloc, &pair(alloc, key, 1)?)?;
        assert!(rt; parts.0.len() == 1);
        assert!(rt; parts.0.first().map(|part| part.child) == Some(want));
        for child in 0..layer.kids() {
            let span = Span {
                lo: value_key(&Value::Int(key)),
                hi: value_key(&Value::Int(key)),
            };
            assert!(rt; layer.skips(child, &span) == (child != want));
        }
    }
    Ok(())
}

// What is gathered of a record that stands in a child.
fn gathered(
    alloc: Global,
    layer: &Partition,
    child: u16,
    rec: &Rec,
) -> Result<Option<Rec>, NoMemory>
    requires child { child < (rule_of layer.now).kids }
    requires of_form { IsOf (form_of layer.now) rec.now }
{
    let rec = rec.copy(alloc)?;
    let key = rec.key.copy(alloc)?;
    let parts = Parts::one(alloc, Part { child, rec })?;
    layer.gather(alloc, &key, &parts)
}

#[test]
fn records_are_gathered_from_their_own_children(rt: HostRuntime) -> Result<(), Fail> {
    let alloc = rt.alloc();
    let form = pair_form(alloc)?;
    let bounds = Values(vec![in alloc; Value::Int(10), Value::Int(20)]?);
    let layer = partition(alloc, &form, Where::Key(0), &bounds)?;
    let rec = pair(alloc, 19, 5)?;
    for child in 0..layer.kids() {
        let found = gathered(alloc, &layer, child, &rec)?;
        match found {
            Some(found) => {
                assert!(rt; child == 1);
                assert!(rt; matches!(found.key.0.as_slice(), [Value::Int(19)]));
                assert!(rt; matches!(found.fields.0.as_slice(), [Value::Int(5)]));
            }
            None => assert!(rt; child != 1),
        }
    }
    Ok(())
}

#[test]
fn records_go_by_their_data(rt: HostRuntime) -> Result<(), Fail> {
    let alloc = rt.alloc();
    let form = pair_form(alloc)?;
    let bounds = Values(vec![in alloc; Value::Int(10)]?);
    let layer = partition(alloc, &form, Where::Rest(0), &bounds)?;
    for (field, want) in [(10, 1), (9, 0)] {
        let parts = layer.parts(alloc, &pair(alloc, 1, field)?)?;
        assert!(rt; parts.0.first().map(|part| part.child) == Some(want));
    }
    let name = Name::from_slice(b"v");
    let is_field = has_field(&form.fields, &name);
    assert!(rt; is_field);
    let carries = layer.carries(0, &name);
    assert!(rt; carries);
    Ok(())
}
