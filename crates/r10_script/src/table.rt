//! The keys of one table of a script.

ghost use Rattle.std.specs.Prelude.{◌≡◌, pos, Some, None, is_some, map, option_map, IfOk, IfErr};
ghost use Rattle.std.specs.Prelude.{IfSome, IfNone, string_bytes, true};
ghost use Rattle.std.specs.BTreeMap.{keys};
ghost use Rattle.std.specs.List.{All, list_any};
ghost use Rattle.std.specs.Str.{bytes_eq};
ghost use Rattle.toml.specs.Data.{get_member, as_table};
ghost use Rattle.toml.specs.View.{view, table_view};
ghost use Rattle.r10_text.specs.Line.{words_high_first};
ghost use Rattle.r10_script.specs.Keys.{integer_at, integer_or_zero_at, integers_at, text_at, bytes_at, bytes_or_none_at};
ghost use Rattle.r10_script.specs.Keys.{flag_or_false_at, items_at, items_or_none_at, HasOnly};

use crate::key_content::{comma_list, cut, found_of};
use r10_text::{Place, ScriptFault, Spot, Wrong};
use std::alloc::{AllocError, Global};
use toml::{Table, Value};

const TABLES: &str = "an array of tables";

const NATURAL: &str = "a whole number from 0";

const BYTE: &str = "a whole number from 0 to 255";

const SHORT: &str = "a whole number from 0 to 65535";

const LONG: &str = "a whole number from 0 to 4294967295";

const SHORTS: &str = "whole numbers from 0 to 65535 in an array";

const HEX: &str = "an even number of hex digits";

const WORDS: &str = "four hex digits for each word";

/// A table of a script, and where it stands.
#[derive(Clone, Copy)]
pub struct Fields<'a> {
    alloc: Global,
    table: &'a Table,
    place: Place,
}

impl<'a> Fields<'a> {
    pub fn new(alloc: Global, table: &'a Table, place: Place) -> Fields<'a>
        ensures { result.table.now ≡ table.now }
    {
        Fields {
            alloc,
            table,
            place,
        }
    }

    /// The table that a value is, if it is one.
    pub fn table_in(&self, value: &'a Value, place: Place) -> Option<Fields<'a>>
        ensures { IfSome result (λ fields. as_table (view value.now) ≡ Some (table_view fields.table.now)) }
    {
        match value.as_table() {
            Some(table) => Some(Fields::new(self.alloc, table, place)),
            None => None,
        }
    }

    /// The table that a value of an array of tables is.
    pub fn table_of(
        &self,
        value: &'a Value,
        key: &'static str,
        place: Place,
    ) -> Result<Fields<'a>, ScriptFault>
        ensures { IfOk result (λ fields. as_table (view value.now) ≡ Some (table_view fields.table.now)) }
    {
        match self.table_in(value, place) {
            Some(fields) => Ok(fields),
            None => Err(self.type_fault(key, TABLES, value)),
        }
    }

    /// The same keys, as those of another place.
    pub fn of_place(&self, place: Place) -> Fields<'a> {
        Fields::new(self.alloc, self.table, place)
    }

    /// A fault of this table. Its line is not known here.
    pub fn fault(&self, wrong: Wrong) -> ScriptFault {
        let place = self.place;
        let spot = Spot { line: None, place };
        ScriptFault::Wrong { spot, wrong }
    }

    /// The fault of a key that is not there, or has not what is wanted.
    pub fn fault_at(&self, key: &'static str, wanted: &'static str) -> ScriptFault {
        match self.value_at(key) {
            Some(value) => self.type_fault(key, wanted, value),
            None => self.fault(Wrong::Missing { key }),
        }
    }

    /// The fault of a value that is not what is wanted.
    fn type_fault(&self, key: &'static str, wanted: &'static str, value: &Value) -> ScriptFault {
        match found_of(self.alloc, value) {
            Ok(found) => self.fault(Wrong::Value { key, wanted, found }),
            Err(error) => ScriptFault::OutOfMemory(error),
        }
    }

    /// The fault of a key that is not one of these.
    fn unknown(&self, key: &str, known: &[&str]) -> ScriptFault {
        match (cut(self.alloc, key), comma_list(self.alloc, known)) {
            (Ok(key), Ok(known)) => self.fault(Wrong::Unknown { key, known }),
            _ => ScriptFault::OutOfMemory(AllocError),
        }
    }

    /// The value under the key.
    fn value_at(&self, key: &str) -> Option<&'a Value>
        ensures { option_map (λ v. view v.now) result ≡ get_member key.now (table_view self.now.table.now) }
    {
        self.table.get(key)
    }

    /// Whether the table has the key.
    pub fn has(&self, key: &str) -> bool
        ensures { result ≡ is_some (get_member key.now (table_view self.now.table.now)) }
    {
        self.value_at(key).is_some()
    }

    /// Whether the key has this number.
    pub fn is_number(&self, key: &str, number: u16) -> bool {
        match self.value_at(key) {
            Some(value) => value.as_integer() == Some(i64::from(number)),
            None => false,
        }
    }

    /// Refuses a key that is not one of these.
    pub fn only(&self, known: &[&str]) -> Result<(), ScriptFault>
        ensures { IfOk result (λ _. HasOnly (map (λ word. word.now) known.now) (table_view self.now.table.now)) }
    {
        match unknown_key(self.table, known) {
            Some(key) => Err(self.unknown(key.as_str(), known)),
            None => Ok(()),
        }
    }

    fn value(&self, key: &'static str) -> Result<&'a Value, ScriptFault>
        ensures found { IfOk result (λ v. get_member key.now (table_view self.now.table.now) ≡ Some (view v.now)) }
        ensures missing { IfErr result (λ _. get_member key.now (table_view self.now.table.now) ≡ None) }
    {
        match self.value_at(key) {
            Some(value) => Ok(value),
            None => Err(self.fault(Wrong::Missing { key })),
        }
    }

    fn integer(&self, key: &'static str, wanted: &'static str) -> Result<i64, ScriptFault>
        ensures { IfOk result (λ z. integer_at (table_view self.now.table.now) key.now ≡ Some z) }
    {
        let value = self.value(key)?;
        match value.as_integer() {
            Some(number) => Ok(number),
            None => Err(self.type_fault(key, wanted, value)),
        }
    }

    /// A count.
    pub fn count(&self, key: &'static str) -> Result<u64, ScriptFault>
        ensures { IfOk result (λ n. integer_at (table_view self.now.table.now) key.now ≡ Some (pos n)) }
    {
        match u64::try_from(self.integer(key, NATURAL)?) {
            Ok(number) => Ok(number),
            Err(_) => Err(self.fault_at(key, NATURAL)),
        }
    }

    /// A place or a number of things.
    pub fn size(&self, key: &'static str) -> Result<usize, ScriptFault>
        ensures { IfOk result (λ n. integer_at (table_view self.now.table.now) key.now ≡ Some (pos n)) }
    {
        self.size_of(key, NATURAL)
    }

    /// A setting that is a number. Of one that is none it is stated what is wanted.
    pub fn size_of(&self, key: &'static str, wanted: &'static str) -> Result<usize, ScriptFault>
        ensures { IfOk result (λ n. integer_at (table_view self.now.table.now) key.now ≡ Some (pos n)) }
    {
        match usize::try_from(self.integer(key, wanted)?) {
            Ok(number) => Ok(number),
            Err(_) => Err(self.fault_at(key, wanted)),
        }
    }

    /// A channel's number in a step.
    pub fn short(&self, key: &'static str) -> Result<u16, ScriptFault>
        ensures { IfOk result (λ n. integer_at (table_view self.now.table.now) key.now ≡ Some (pos n)) }
    {
        self.short_of(key, SHORT)
    }

    /// A setting of 16 bits. Of one that is none it is stated what is wanted.
    pub fn short_of(&self, key: &'static str, wanted: &'static str) -> Result<u16, ScriptFault>
        ensures { IfOk result (λ n. integer_at (table_view self.now.table.now) key.now ≡ Some (pos n)) }
    {
        match u16::try_from(self.integer(key, wanted)?) {
            Ok(number) => Ok(number),
            Err(_) => Err(self.fault_at(key, wanted)),
        }
    }

    /// A whole number, 0 where the key is absent.
    fn integer_or_zero(&self, key: &'static str, wanted: &'static str) -> Result<i64, ScriptFault>
        ensures { IfOk result (λ z. integer_or_zero_at (table_view self.now.table.now) key.now ≡ Some z) }
    {
        if self.has(key) {
            self.integer(key, wanted)
        } else {
            Ok(0)
        }
    }

    /// A field of 8 bits, 0 where the key is absent.
    pub fn byte_or_zero(&self, key: &'static str) -> Result<u8, ScriptFault>
        ensures { IfOk result (λ n. integer_or_zero_at (table_view self.now.table.now) key.now ≡ Some (pos n)) }
    {
        match u8::try_from(self.integer_or_zero(key, BYTE)?) {
            Ok(number) => Ok(number),
            Err(_) => Err(self.fault_at(key, BYTE)),
        }
    }

    /// A field of 16 bits, 0 where the key is absent.
    pub fn short_or_zero(&self, key: &'static str) -> Result<u16, ScriptFault>
        ensures { IfOk result (λ n. integer_or_zero_at (table_view self.now.table.now) key.now ≡ Some (pos n)) }
    {
        match u16::try_from(self.integer_or_zero(key, SHORT)?) {
            Ok(number) => Ok(number),
            Err(_) => Err(self.fault_at(key, SHORT)),
        }
    }

    /// A field of 32 bits, 0 where the key is absent.
    pub fn long_or_zero(&self, key: &'static str) -> Result<u32, ScriptFault>
        ensures { IfOk result (λ n. integer_or_zero_at (table_view self.now.table.now) key.now ≡ Some (pos n)) }
    {
        match u32::try_from(self.integer_or_zero(key, LONG)?) {
            Ok(number) => Ok(number),
            Err(_) => Err(self.fault_at(key, LONG)),
        }
    }

    /// The elements of an array.
    fn elements(&self, key: &'static str, wanted: &'static str) -> Result<&'a [Value], ScriptFault>
        ensures { IfOk result (λ vs. items_at (table_view self.now.table.now) key.now ≡ Some (map view vs.now)) }
    {
        let value = self.value(key)?;
        match value.as_array() {
            Some(values) => Ok(values.as_slice()),
            None => Err(self.type_fault(key, wanted, value)),
        }
    }

    /// The channel IDs of an array.
    pub fn shorts(&self, key: &'static str) -> Result<Vec<u16>, ScriptFault>
        ensures { IfOk result (λ v. integers_at (table_view self.now.table.now) key.now ≡ Some (map (λ n. Some (pos n)) v.items)) }
    {
        let mut numbers = Vec::new(self.alloc);
        for value in self.elements(key, SHORTS)? {
            let Some(number) = value.as_integer() else {
                return Err(self.type_fault(key, SHORTS, value));
            };
            match u16::try_from(number) {
                Ok(number) => numbers.push(number)?,
                Err(_) => return Err(self.type_fault(key, SHORTS, value)),
            }
        }
        Ok(numbers)
    }

    pub fn text(&self, key: &'static str, wanted: &'static str) -> Result<&'a str, ScriptFault>
        ensures { IfOk result (λ t. text_at (table_view self.now.table.now) key.now ≡ Some t.now) }
    {
        let value = self.value(key)?;
        match value.as_str() {
            Some(text) => Ok(text),
            None => Err(self.type_fault(key, wanted, value)),
        }
    }

    /// The bytes of a text.
    pub fn text_bytes(
        &self,
        key: &'static str,
        wanted: &'static str,
    ) -> Result<Vec<u8>, ScriptFault>
        ensures { IfOk result (λ v. text_at (table_view self.now.table.now) key.now ≡ Some v.items) }
    {
        let text = self.text(key, wanted)?;
        Ok(Vec::from_slice(self.alloc, text.as_bytes())?)
    }

    /// A truth value, false where the key is absent.
    pub fn truth_or_false(&self, key: &'static str) -> Result<bool, ScriptFault>
        ensures { IfOk result (λ b. flag_or_false_at (table_view self.now.table.now) key.now ≡ Some b) }
    {
        let Some(value) = self.value_at(key) else {
            return Ok(false);
        };
        match value.as_bool() {
            Some(truth) => Ok(truth),
            None => Err(self.type_fault(key, "true or false", value)),
        }
    }

    /// The bytes that a text of hex digits represents. Of another text it is stated what is wanted.
    fn hex_bytes(&self, key: &'static str, wanted: &'static str) -> Result<Vec<u8>, ScriptFault>
        ensures { IfOk result (λ v. bytes_at (table_view self.now.table.now) key.now ≡ Some v.items) }
    {
        match hex::decode(self.alloc, self.text(key, wanted)?) {
            Ok(bytes) => Ok(bytes),
            Err(hex::FromHexError::OutOfMemory) => Err(ScriptFault::OutOfMemory(AllocError)),
            Err(_) => Err(self.fault_at(key, wanted)),
        }
    }

    /// The bytes that a text of hex digits represents.
    pub fn bytes(&self, key: &'static str) -> Result<Vec<u8>, ScriptFault>
        ensures { IfOk result (λ v. bytes_at (table_view self.now.table.now) key.now ≡ Some v.items) }
    {
        self.hex_bytes(key, HEX)
    }

    /// The bytes that a text of hex digits represents, none where the key is absent.
    pub fn bytes_or_none(&self, key: &'static str) -> Result<Vec<u8>, ScriptFault>
        ensures { IfOk result (λ v. bytes_or_none_at (table_view self.now.table.now) key.now ≡ Some v.items) }
    {
        if self.has(key) {
            self.bytes(key)
        } else {
            Ok(Vec::new(self.alloc))
        }
    }

    /// The 16-bit words that a text of four hex digits each represents, none where the key is absent.
    pub fn words_or_none(&self, key: &'static str) -> Result<Vec<u16>, ScriptFault>
        ensures { IfOk result (λ v. bytes_or_none_at (table_view self.now.table.now) key.now ≡ Some (words_high_first v.items)) }
    {
        if !self.has(key) {
            return Ok(Vec::new(self.alloc));
        }
        let bytes = self.hex_bytes(key, WORDS)?;
        match words_of(self.alloc, &bytes)? {
            Some(words) => Ok(words),
            None => Err(self.fault_at(key, WORDS)),
        }
    }

    /// The elements of an array of tables, whose key must be there.
    pub fn needed_tables(&self, key: &'static str) -> Result<&'a [Value], ScriptFault>
        ensures { IfOk result (λ vs. items_at (table_view self.now.table.now) key.now ≡ Some (map view vs.now)) }
    {
        self.elements(key, TABLES)
    }

    /// The elements of an array of tables, none where the key is absent.
    pub fn tables(&self, key: &'static str) -> Result<&'a [Value], ScriptFault>
        ensures { IfOk result (λ vs. items_or_none_at (table_view self.now.table.now) key.now ≡ Some (map view vs.now)) }
    {
        if self.has(key) {
            self.elements(key, TABLES)
        } else {
            Ok(&[])
        }
    }
}

/// Whether a key is one of these.
fn is_among(known: &[&str], key: &str) -> bool
    ensures { result ≡ list_any (λ word. bytes_eq word.now key.now) known.now }
{
    known.iter().any(|word| *word == key)
}

/// The first key of the table that is not one of these.
fn unknown_key<'a>(table: &'a Table, known: &[&str]) -> Option<&'a String>
    ensures { IfNone result
        (All (λ key. list_any (λ word. bytes_eq word.now (string_bytes key)) known.now ≡ true) (keys table.now)) }
{
    table.keys().find(|key| !is_among(known, key.as_str()))
}

/// The words that these bytes are, the high byte of each first, or none where their number is odd.
fn words_of(alloc: Global, bytes: &[u8]) -> Result<Option<Vec<u16>>, AllocError>
    ensures { IfOk result (λ found. IfSome found (λ words. bytes.now ≡ words_high_first words.items)) }
{
    let mut words = Vec::new(alloc);
    let mut rest = bytes;
    while let [high, low, after @ ..] = rest {
        words.push(u16::from_be_bytes([*high, *low]))?;
        rest = after;
    }
    if rest.is_empty() {
        Ok(Some(words))
    } else {
        Ok(None)
    }
}
