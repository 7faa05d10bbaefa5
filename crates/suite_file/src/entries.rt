//! What stands at the keys of a table.

ghost use Rattle.std.specs.Prelude.{◌≡◌, ◌≤◌, ℕ, Bool, IfErr, IfNone, IfOk, IfSome, OnOk, codes, map, option_copied, option_map, pos};
ghost use Rattle.toml.specs.Data.{get_member, integer, string};
ghost use Rattle.toml.specs.View.{table_view, view};
ghost use Rattle.suite_file.specs.Entries.{HasOnlyKeys, IsNumber, IsNumberIfThere, IsTableIfThere, IsTextIfThere, IsTruth};
ghost use Rattle.suite_file.specs.Faults.{IsAt};

use crate::fault::SuiteFault;
use crate::keys::unknown;
use crate::part::Part;
use toml::Value;

// The number, if it is one from the least to the most.
fn number_of(value: &Value, least: u64, most: u64) -> Option<u64>
    ensures some { IfSome result (λ number. (view value.now ≡ integer (pos number)) × (least ≤ number) × (number ≤ most)) }
    ensures none { IfNone result ((number : ℕ) → view value.now ≡ integer (pos number) → least ≤ number → ¬ (number ≤ most)) }
{
    let Value::Integer(number) = value else {
        return None;
    };
    let Ok(number) = u64::try_from(*number) else {
        return None;
    };
    if least <= number && number <= most {
        Some(number)
    } else {
        None
    }
}

impl<'t> Part<'t> {
    /// What stands at a key.
    pub fn value_at(&self, key: &str) -> Option<&'t Value>
        ensures { option_map (λ value. view value.now) result ≡ get_member key.now (table_view self.now.table.now) }
    {
        self.table.get(key)
    }

    /// The text at a key, if it is there.
    pub fn text_at(&self, key: &str) -> Result<Option<&'t str>, SuiteFault>
        ensures ok { IfOk result (λ text. get_member key.now (table_view self.now.table.now) ≡ option_map string (option_copied text)) }
        ensures refused { IfErr result (λ fault. IsAt fault → ¬ IsTextIfThere (get_member key.now (table_view self.now.table.now))) }
    {
        let Some(value) = self.value_at(key) else {
            return Ok(None);
        };
        match value.as_str() {
            Some(text) => Ok(Some(text)),
            None => Err(self.key_fault("", key, "is no text")),
        }
    }

    /// The number at a key, which is from the least to the most; the other one where it isn't there.
    pub fn number_at(&self, key: &str, least: u64, most: u64, other: u64) -> Result<u64, SuiteFault>
        ensures ok { IfOk result (IsNumber least most (get_member key.now (table_view self.now.table.now)) other) }
        ensures refused { IfErr result (λ fault. IsAt fault → (number : ℕ) → ¬ IsNumber least most (get_member key.now (table_view self.now.table.now)) other number) }
    {
        let Some(value) = self.value_at(key) else {
            return Ok(other);
        };
        match number_of(value, least, most) {
            Some(number) => Ok(number),
            None => Err(self.number_fault(key, least, most)),
        }
    }

    /// Refuses what isn't a number from the least to the most at a key, if something is there.
    pub fn check_number(&self, key: &str, least: u64, most: u64) -> Result<(), SuiteFault>
        ensures ok { OnOk result (IsNumberIfThere least most (get_member key.now (table_view self.now.table.now))) }
        ensures refused { IfErr result (λ fault. IsAt fault → ¬ IsNumberIfThere least most (get_member key.now (table_view self.now.table.now))) }
    {
        let Some(value) = self.value_at(key) else {
            return Ok(());
        };
        match number_of(value, least, most) {
            Some(_number) => Ok(()),
            None => Err(self.number_fault(key, least, most)),
        }
    }

    /// The truth at a key; the other one where it isn't there.
    pub fn truth_at(&self, key: &str, other: bool) -> Result<bool, SuiteFault>
        ensures ok { IfOk result (IsTruth (get_member key.now (table_view self.now.table.now)) other) }
        ensures refused { IfErr result (λ fault. IsAt fault → (truth : Bool) → ¬ IsTruth (get_member key.now (table_view self.now.table.now)) other truth) }
    {
        let Some(value) = self.value_at(key) else {
            return Ok(other);
        };
        match value.as_bool() {
            Some(truth) => Ok(truth),
            None => Err(self.key_fault("", key, "is neither true nor false")),
        }
    }

    // Refuses a key that is none of these.
    fn refuse_unknown(&self, known: &[&str]) -> Result<(), SuiteFault>
        ensures ok { OnOk result (HasOnlyKeys (map (λ one. one.now) known.now) (table_view self.now.table.now)) }
        ensures refused { IfErr result (λ fault. IsAt fault → ¬ HasOnlyKeys (map (λ one. one.now) known.now) (table_view self.now.table.now)) }
    {
        match unknown(self.table, known) {
            Some(key) => Err(self.key_fault("", key, "is no key here")),
            None => Ok(()),
        }
    }

    // The table at a key is for other readers: nothing in it is looked at.
    fn skip_table(&self, key: &str) -> Result<(), SuiteFault>
        ensures ok { OnOk result (IsTableIfThere (get_member key.now (table_view self.now.table.now))) }
        ensures refused { IfErr result (λ fault. IsAt fault → ¬ IsTableIfThere (get_member key.now (table_view self.now.table.now))) }
    {
        let Some(value) = self.value_at(key) else {
            return Ok(());
        };
        match value.as_table() {
            Some(_) => Ok(()),
            None => Err(self.key_fault("", key, "is no table")),
        }
    }

    /// Refuses a key that is none of these, and a `metadata` that is no table.
    pub fn check_keys(&self, known: &[&str]) -> Result<(), SuiteFault>
        ensures keys { OnOk result (HasOnlyKeys (map (λ one. one.now) known.now) (table_view self.now.table.now)) }
        ensures metadata { OnOk result (IsTableIfThere (get_member (codes "metadata") (table_view self.now.table.now))) }
        ensures refused { IfErr result (λ fault. IsAt fault → HasOnlyKeys (map (λ one. one.now) known.now) (table_view self.now.table.now) → ¬ IsTableIfThere (get_member (codes "metadata") (table_view self.now.table.now))) }
    {
        self.refuse_unknown(known)?;
        self.skip_table("metadata")
    }
}
