ghost use Rattle.std.specs.Prelude.{◌≡◌, ◌+◌, ◌≤◌, [], length, option_map, IfOk, OnOk, IfSome};
ghost use Rattle.std.specs.Prelude.{Some, None};
ghost use Rattle.byte_model.specs.Node.{longest_value};
ghost use Rattle.trie_model.specs.Texts as texts;
ghost use Rattle.node_codec.specs.Meanings.{value_of};
ghost use Rattle.update_model.specs.Updates.{appearing, ref_after, value_lost};
ghost use Rattle.trie_update.specs.Accounts.{CanCount, Grows, GrowsBy, IsNamed};
ghost use Rattle.trie_update.specs.ChangesAt.{value_lent};

use crate::ledger::Ledger;
use base_core::Text;
use node_codec::ValueRef;
use std::alloc::{AllocError, Global};
use trie_shape::value_ref;

/// What a key that ends here has after the batch, with what is gained and lost for it.
#[inline(always)]
pub(crate) fn value_after(
    alloc: Global,
    ledger: &mut Ledger,
    former: Option<ValueRef>,
    here: Option<Option<&[u8]>>,
) -> Result<Option<ValueRef>, AllocError>
    requires short { IfSome here (λ value. IfSome value (λ v. length v.now ≤ longest_value)) }
    requires room { CanCount ledger.old 1 }
    requires named { IsNamed ledger.old }
    ensures value { IfOk result (λ after. option_map value_of after ≡ ref_after (option_map value_of former) (option_map value_lent here.entry)) }
    ensures grows { OnOk result (GrowsBy ledger.old ledger.new (option_map value_of former) (option_map value_lent here.entry)) }
    ensures names { OnOk result (IsNamed ledger.new) }
{
    let Some(change) = here else {
        return Ok(former);
    };
    match change {
        None => {
            delete(ledger, former)?;
            Ok(None)
        }
        Some(value) => Ok(Some(set(alloc, ledger, former, value)?)),
    }
}

#[inline(always)]
fn delete(ledger: &mut Ledger, former: Option<ValueRef>) -> Result<(), AllocError>
    requires room { CanCount ledger.old 1 }
    requires named { IsNamed ledger.old }
    ensures grows { OnOk result (GrowsBy ledger.old ledger.new (option_map value_of former) (Some None)) }
    ensures names { OnOk result (IsNamed ledger.new) }
{
    let Some(former) = former else {
        return Ok(());
    };
    ledger.lose(former.digest)?;
    ledger.gone += 1;
    Ok(())
}

#[inline(always)]
fn set(
    alloc: Global,
    ledger: &mut Ledger,
    former: Option<ValueRef>,
    value: &[u8],
) -> Result<ValueRef, AllocError>
    requires short { length value.now ≤ longest_value }
    requires room { CanCount ledger.old 1 }
    requires named { IsNamed ledger.old }
    ensures value { IfOk result (λ ref. value_of ref ≡ texts.value_ref value.now) }
    ensures grows { OnOk result (GrowsBy ledger.old ledger.new (option_map value_of former) (Some (Some value.now))) }
    ensures names { OnOk result (IsNamed ledger.new) }
{
    replace(ledger, former)?;
    let name = value_ref(value);
    ledger.gain(name.digest, Text::copy(alloc, value)?)?;
    Ok(name)
}

/// Before a value is set: the former one is lost, or else the key appears.
#[inline(always)]
fn replace(ledger: &mut Ledger, former: Option<ValueRef>) -> Result<(), AllocError>
    requires room { CanCount ledger.old 1 }
    requires named { IsNamed ledger.old }
    ensures grows { OnOk result (Grows ledger.old ledger.new [] (value_lost (option_map value_of former) (Some None)) (appearing former (Some (Some []))) 0) }
    ensures names { OnOk result (IsNamed ledger.new) }
{
    match former {
        Some(former) => ledger.lose(former.digest),
        None => {
            ledger.fresh += 1;
            Ok(())
        }
    }
}
