//! The pairs of an object.
ghost use Rattle.std.specs.Prelude.{◌≡◌, map, IfOk};
ghost use Rattle.msgpack_codec.specs.declared.value.Value.TheVariants as value;
ghost use Rattle.data_text.specs.Json.{pair_of};

use bs_outside::{Items, Text};
use indexmap::IndexMap;
use msgpack_codec::Value;
use std::alloc::{AllocError, Global};

/// The pairs of an object, in order.
pub(crate) fn pairs_of(
    alloc: Global,
    members: IndexMap<Text, Value>,
) -> Result<Items<(Value, Value)>, AllocError>
    ensures { IfOk result (λ pairs. pairs ≡ map pair_of members.entries) }
{
    let mut pairs = Vec::new(alloc);
    for (key, value) in members {
        pairs.push((Value::Str(key), value))?;
    }
    Ok(Items::from_vec(pairs))
}
