//! Lists of values, and the keys that have them.
ghost use Rattle.std.specs.Prelude.{◌≡◌, [], IfOk, Option, map, option_map};
ghost use Rattle.toml.specs.Data.{Data};
ghost use Rattle.toml.specs.View.{items_view, table_view, view};
ghost use Rattle.eid_perso.specs.Forms.{each_item, list_of, request_of_word};
ghost use Rattle.eid_perso.specs.Keys.{optional, or_refused, required, row};
ghost use Rattle.eid_perso.specs.Reading.{Reads};

use crate::config::ConfigError;
use crate::form::Key;
use crate::forms;
use crate::keys::value_at;
use crate::names::group_named;
use eid_base::NoMemory;
use eid_cvc::read_certificate;
use eid_terminal::Request;
use std::alloc::Global;
use toml::{Table, Value};

/// A form of the items of a list, whose reading may take memory.
pub trait Item {
    /// What an item of the form is read to.
    type Read: Drop;

    // What contracts see of it.
    ghost Plain: { Type 0 };

    ghost plain: { Self.Read → Plain };

    // What TOML data gives in the form, if anything.
    ghost gives: { Self → Data → Option Plain };

    /// Reads an item, if it has the form.
    fn read_item(&self, alloc: Global, value: &Value) -> Result<Option<Self::Read>, NoMemory>
        ensures { IfOk result (λ x. option_map plain x ≡ gives self.now (view value.now)) };
}

/// A list of at most so many items of a form.
#[derive(Drop)]
pub struct ListOf<I> {
    pub most: usize,
    pub item: I,
}

/// The list of a key that has to be there.
pub fn required_list<I: Item>(
    alloc: Global,
    table: &Table,
    key: &Key<ListOf<I>>,
) -> Result<Vec<I::Read>, ConfigError>
    ensures { let form = list_of key.now.form.most (I.gives key.now.form.item) in
        Reads (λ v. map I.plain v.items) result (required (row key.now.number key.now.name.now form) (table_view table.now)) }
{
    let Some(value) = value_at(table, key.name) else {
        return Err(ConfigError::Bad { key: key.number });
    };
    given_list(alloc, value, key)
}

/// The list of a key that may be absent and then is empty.
pub fn optional_list<I: Item>(
    alloc: Global,
    table: &Table,
    key: &Key<ListOf<I>>,
) -> Result<Vec<I::Read>, ConfigError>
    ensures { let form = list_of key.now.form.most (I.gives key.now.form.item) in
        Reads (λ v. map I.plain v.items) result (optional (row key.now.number key.now.name.now form) [] (table_view table.now)) }
{
    let Some(value) = value_at(table, key.name) else {
        return Ok(Vec::new(alloc));
    };
    given_list(alloc, value, key)
}

/// The list that the value of a key is.
fn given_list<I: Item>(
    alloc: Global,
    value: &Value,
    key: &Key<ListOf<I>>,
) -> Result<Vec<I::Read>, ConfigError>
    ensures { let form = list_of key.now.form.most (I.gives key.now.form.item) in
        Reads (λ v. map I.plain v.items) result (or_refused key.now.number (form (view value.now))) }
{
    match read_list(alloc, value, &key.form) {
        Ok(Some(list)) => Ok(list),
        Ok(None) => Err(ConfigError::Bad { key: key.number }),
        Err(_) => Err(ConfigError::NoMemory),
    }
}

/// Reads a list, if it has the form.
#[tactic(auto, using(crate::proofs::ReadItems::too_many, crate::proofs::ReadItems::few_enough))]
fn read_list<I: Item>(
    alloc: Global,
    value: &Value,
    form: &ListOf<I>,
) -> Result<Option<Vec<I::Read>>, NoMemory>
    ensures { IfOk result (λ list. option_map (λ v. map I.plain v.items) list
        ≡ list_of form.now.most (I.gives form.now.item) (view value.now)) }
{
    let Some(items) = value.as_array() else {
        return Ok(None);
    };
    if items.len() > form.most {
        return Ok(None);
    }
    read_items(alloc, items.as_slice(), &form.item)
}

/// Reads each item, if all have the form.
fn read_items<I: Item>(
    alloc: Global,
    items: &[Value],
    form: &I,
) -> Result<Option<Vec<I::Read>>, NoMemory>
    ensures { IfOk result (λ list. option_map (λ v. map I.plain v.items) list
        ≡ each_item (I.gives form.now) (items_view items.now)) }
{
    let mut list = Vec::new(alloc);
    for item in items {
        match form.read_item(alloc, item)? {
            Some(x) => list.push(x)?,
            None => return Ok(None),
        }
    }
    Ok(Some(list))
}

/// A certificate in hexadecimal.
#[derive(Drop)]
pub struct CertificateText;

impl Item for CertificateText {
    ghost use Rattle.std.specs.Prelude.{ℕ, List};
    ghost use Rattle.eid_terminal.specs.Plans.{certificate_bytes};
    ghost use Rattle.eid_perso.specs.Forms.{certificate};

    type Read = Vec<u8>;

    ghost Plain = { List ℕ };

    ghost plain = { certificate_bytes };

    ghost gives = { λ form value. certificate value };

    fn read_item(&self, alloc: Global, value: &Value) -> Result<Option<Vec<u8>>, NoMemory> {
        let Some(bytes) = forms::file(alloc, value)? else {
            return Ok(None);
        };
        if read_certificate(&bytes).is_err() {
            return Ok(None);
        }
        Ok(Some(bytes))
    }
}

/// The word of a request. That of restricted identification needs a sector key.
#[derive(Drop)]
pub struct RequestWord {
    pub has_sector: bool,
}

impl Item for RequestWord {
    ghost use Rattle.eid_terminal.specs.declared.plan.Request.{Request};
    ghost use Rattle.eid_perso.specs.Forms.{request_word};

    type Read = Request;

    ghost Plain = { Request };

    ghost plain = { λ r. r };

    ghost gives = { λ form value. request_word form.has_sector value };

    fn read_item(&self, _alloc: Global, value: &Value) -> Result<Option<Request>, NoMemory> {
        match value.as_str() {
            Some(word) => Ok(request_of_word(word, self.has_sector)),
            None => Ok(None),
        }
    }
}

/// The request that a word names.
fn request_of_word(word: &str, has_sector: bool) -> Option<Request>
    ensures { result ≡ request_of_word has_sector word.now }
{
    match word {
        "age" => Some(Request::Age),
        "validity" => Some(Request::Validity),
        "community" => Some(Request::Community),
        "ri" if has_sector => Some(Request::Ri),
        "ri" => None,
        _ => group_named(word).map(Request::File),
    }
}
