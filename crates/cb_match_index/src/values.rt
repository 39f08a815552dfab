//! The values of the matches of one branch, by the numbers of the matches.
ghost use Rattle.std.specs.Prelude.{◌≡◌, ◌≢◌, ◌<◌, ℕ, true, None, OnErr, OnOk, Some, length};
ghost use Rattle.cb_match_index.specs.Internal.{value_at};
ghost use Rattle.cb_match_index.specs.MatchIndices.{KeepsAll};
ghost use Rattle.cb_number_map.specs.Filed.{ChangesAt};

use cb_forms::NoMemory;

/// What stands where there is no value.
pub(crate) const NOTHING: u32 = u32::MAX;

/// The value under a number, if there is one.
pub(crate) fn value_at(values: &Vec<u32>, number: u32) -> Option<u32>
    ensures { result ≡ value_at values.now.items number }
{
    match values.get(number as usize) {
        Some(value) if *value != NOTHING => Some(*value),
        _ => None,
    }
}

/// Puts a value under a number, in place of what was there. Growth is refused as `NoMemory`, and then nothing has changed.
pub(crate) fn put_at(values: &mut Vec<u32>, number: u32, value: u32) -> Result<(), NoMemory>
    requires { value ≢ 4294967295 }
    ensures ok { OnOk result
        (ChangesAt (value_at values.old.items) (value_at values.new.items) number (Some value)) }
    ensures err { OnErr result (KeepsAll (value_at values.old.items) (value_at values.new.items)) }
{
    reach(values, number)?;
    values[number as usize] = value;
    Ok(())
}

/// Takes the value under a number out, if there is one, and returns it.
pub(crate) fn take_at(values: &mut Vec<u32>, number: u32) -> Option<u32>
    ensures value { result ≡ value_at values.old.items number }
    ensures gone { ChangesAt (value_at values.old.items) (value_at values.new.items) number None }
{
    let value = value_at(values, number);
    if let Some(place) = values.get_mut(number as usize) {
        *place = NOTHING;
    }
    value
}

/// Makes the list long enough for a number. Growth is refused as `NoMemory`.
fn reach(values: &mut Vec<u32>, number: u32) -> Result<(), NoMemory>
    ensures long { OnOk result (number < length values.new.items) }
    ensures same { KeepsAll (value_at values.old.items) (value_at values.new.items) }
{
    let wanted = number as usize + 1;
    if values.len() < wanted {
        values.resize(wanted, NOTHING)?;
    }
    Ok(())
}

/// Whether there is no value.
pub(crate) fn has_none(values: &Vec<u32>) -> bool
    ensures { result ≡ true → (number : ℕ) → value_at values.now.items number ≡ None }
{
    for value in values {
        if *value != NOTHING {
            return false;
        }
    }
    true
}
