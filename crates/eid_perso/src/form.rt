//! Forms of values, and the keys that have them.
ghost use Rattle.std.specs.Prelude.{◌≡◌, IfOk, IfSome, Option, option_map};
ghost use Rattle.toml.specs.Data.{Data};
ghost use Rattle.toml.specs.View.{table_view, view};
ghost use Rattle.eid_perso.specs.Keys.{optional, required, row};
ghost use Rattle.eid_perso.specs.Reading.{Reads};

use crate::config::ConfigError;
use crate::forms;
use crate::keys::value_at;
use arrayvec::ArrayVec;
use eid_base::Point;
use eid_bits::{Date6, Date8, Template};
use eid_record::Password;
use toml::{Table, Value};

/// A form of values.
pub trait Form {
    /// What a value of the form is read to.
    type Read: Drop;

    // What contracts see of it.
    ghost Plain: { Type 0 };

    ghost plain: { Self.Read → Plain };

    // What TOML data gives in the form, if anything.
    ghost gives: { Self → Data → Option Plain };

    // What is true of all that the form gives.
    ghost valid: { Self → Plain → Type 0 };

    /// Reads a value, if it has the form.
    fn read(&self, value: &Value) -> Option<Self::Read>
        ensures given { option_map plain result ≡ gives self.now (view value.now) }
        ensures valid { IfSome result (λ x. valid self.now (plain x)) };
}

/// A row of the table of keys.
#[derive(Drop)]
pub struct Key<F> {
    pub number: u8,
    pub name: &'static str,
    pub form: F,
}

/// The value of a key that has to be there.
pub fn required<F: Form>(table: &Table, key: &Key<F>) -> Result<F::Read, ConfigError>
    ensures reads { Reads F.plain result (required (row key.now.number key.now.name.now (F.gives key.now.form)) (table_view table.now)) }
    ensures valid { IfOk result (λ x. F.valid key.now.form (F.plain x)) }
{
    let Some(value) = value_at(table, key.name) else {
        return Err(ConfigError::Bad { key: key.number });
    };
    match key.form.read(value) {
        Some(x) => Ok(x),
        None => Err(ConfigError::Bad { key: key.number }),
    }
}

/// The value of a key that may be absent and then is `absent`.
pub fn optional<F: Form>(
    table: &Table,
    key: &Key<F>,
    absent: F::Read,
) -> Result<F::Read, ConfigError>
    requires { F.valid key.now.form (F.plain absent) }
    ensures reads { Reads F.plain result (optional (row key.now.number key.now.name.now (F.gives key.now.form)) (F.plain absent) (table_view table.now)) }
    ensures valid { IfOk result (λ x. F.valid key.now.form (F.plain x)) }
{
    let Some(value) = value_at(table, key.name) else {
        return Ok(absent);
    };
    match key.form.read(value) {
        Some(x) => Ok(x),
        None => Err(ConfigError::Bad { key: key.number }),
    }
}

/// A whole number within bounds.
#[derive(Drop)]
pub struct Whole {
    pub least: u32,
    pub most: u32,
}

impl Form for Whole {
    ghost use Rattle.std.specs.Prelude.{ℕ, ◌≤◌};
    ghost use Rattle.eid_perso.specs.Forms.{whole};

    type Read = u32;

    ghost Plain = { ℕ };

    ghost plain = { λ n. n };

    ghost gives = { λ form value. whole form.least form.most value };

    ghost valid = { λ form n. (form.least ≤ n) × (n ≤ form.most) };

    fn read(&self, value: &Value) -> Option<u32> {
        forms::whole(value, self.least, self.most)
    }
}

/// A truth value.
#[derive(Drop)]
pub struct Truth;

impl Form for Truth {
    ghost use Rattle.std.specs.Prelude.{Bool, ⊤};
    ghost use Rattle.toml.specs.Data.{as_bool};

    type Read = bool;

    ghost Plain = { Bool };

    ghost plain = { λ b. b };

    ghost gives = { λ form value. as_bool value };

    ghost valid = { λ form b. ⊤ };

    fn read(&self, value: &Value) -> Option<bool> {
        value.as_bool()
    }
}

/// So many decimal digits.
#[derive(Drop)]
pub struct Digits<const N: usize>;

impl<const N: usize> Form for Digits<N> {
    ghost use Rattle.std.specs.Prelude.{ℕ, List};
    ghost use Rattle.eid_record.specs.Valid.{AreDigits};
    ghost use Rattle.eid_perso.specs.Forms.{digits};

    type Read = [u8; N];

    ghost Plain = { List ℕ };

    ghost plain = { λ text. text };

    ghost gives = { λ form value. digits N value };

    ghost valid = { λ form text. AreDigits N text };

    fn read(&self, value: &Value) -> Option<[u8; N]> {
        match forms::digits::<N>(value) {
            Some(text) => Some(text),
            None => None,
        }
    }
}

/// A date in six decimal digits.
#[derive(Drop)]
pub struct Day;

impl Form for Day {
    ghost use Rattle.std.specs.Prelude.{ℕ, List, IsTrue};
    ghost use Rattle.eid_bits.specs.Date.{is_date};
    ghost use Rattle.eid_bits.specs.Dates.{date_digits};
    ghost use Rattle.eid_perso.specs.Forms.{date};

    type Read = Date6;

    ghost Plain = { List ℕ };

    ghost plain = { date_digits };

    ghost gives = { λ form value. date value };

    ghost valid = { λ form day. IsTrue (is_date day) };

    fn read(&self, value: &Value) -> Option<Date6> {
        forms::date(value)
    }
}

/// ASCII text of 1 to 16 characters.
#[derive(Drop)]
pub struct Name;

impl Form for Name {
    ghost use Rattle.std.specs.Prelude.{ℕ, List, IsTrue, length};
    ghost use Rattle.eid_bits.specs.Date.{is_between};
    ghost use Rattle.eid_perso.specs.Forms.{name};

    type Read = ArrayVec<u8, 16>;

    ghost Plain = { List ℕ };

    ghost plain = { λ text. text.items };

    ghost gives = { λ form value. name value };

    ghost valid = { λ form text. IsTrue (is_between 1 16 (length text)) };

    fn read(&self, value: &Value) -> Option<ArrayVec<u8, 16>> {
        forms::name(value)
    }
}

/// So many bytes in hexadecimal.
#[derive(Drop)]
pub struct Hex<const N: usize>;

impl<const N: usize> Form for Hex<N> {
    ghost use Rattle.std.specs.Prelude.{ℕ, List, length};
    ghost use Rattle.eid_perso.specs.Forms.{sized};

    type Read = [u8; N];

    ghost Plain = { List ℕ };

    ghost plain = { λ bytes. bytes };

    ghost gives = { λ form value. sized N value };

    ghost valid = { λ form bytes. length bytes ≡ N };

    fn read(&self, value: &Value) -> Option<[u8; N]> {
        forms::sized::<N>(value)
    }
}

/// A form where the key may be left out.
#[derive(Drop)]
pub struct Maybe<F>(pub F);

impl<F: Form> Form for Maybe<F> {
    ghost use Rattle.eid_perso.specs.Forms.{maybe};

    type Read = Option<F::Read>;

    ghost Plain = { Option F.Plain };

    ghost plain = { option_map F.plain };

    ghost gives = { λ form value. maybe (F.gives form.0) value };

    ghost valid = { λ form x. IfSome x (F.valid form.0) };

    fn read(&self, value: &Value) -> Option<Option<F::Read>> {
        match self.0.read(value) {
            Some(x) => Some(Some(x)),
            None => None,
        }
    }
}

/// The five bytes of a template in hexadecimal.
#[derive(Drop)]
pub struct Rights;

impl Form for Rights {
    ghost use Rattle.std.specs.Prelude.{ℕ, List, length};
    ghost use Rattle.eid_bits.specs.Template.{template_bytes};
    ghost use Rattle.eid_perso.specs.Forms.{sized};

    type Read = Template;

    ghost Plain = { List ℕ };

    ghost plain = { template_bytes };

    ghost gives = { λ form value. sized 5 value };

    ghost valid = { λ form bytes. length bytes ≡ 5 };

    fn read(&self, value: &Value) -> Option<Template> {
        forms::template(value)
    }
}

/// An uncompressed point in hexadecimal.
#[derive(Drop)]
pub struct Uncompressed;

impl Form for Uncompressed {
    ghost use Rattle.std.specs.Prelude.{ℕ, List, Some, length, slice_get};
    ghost use Rattle.eid_perso.specs.Forms.{point};

    type Read = Point;

    ghost Plain = { List ℕ };

    ghost plain = { λ bytes. bytes };

    ghost gives = { λ form value. point value };

    ghost valid = { λ form bytes. (length bytes ≡ 65) × (slice_get bytes 0 ≡ Some 4) };

    fn read(&self, value: &Value) -> Option<Point> {
        forms::point(value)
    }
}

/// A date in eight decimal digits.
#[derive(Drop)]
pub struct LongDate;

impl Form for LongDate {
    ghost use Rattle.std.specs.Prelude.{ℕ, List, ⊤};
    ghost use Rattle.eid_bits.specs.Dates.{date_text};
    ghost use Rattle.eid_perso.specs.Forms.{long_date};

    type Read = Date8;

    ghost Plain = { List ℕ };

    ghost plain = { date_text };

    ghost gives = { λ form value. long_date value };

    ghost valid = { λ form text. ⊤ };

    fn read(&self, value: &Value) -> Option<Date8> {
        forms::long_date(value)
    }
}

/// 1 to 16 bytes in hexadecimal.
#[derive(Drop)]
pub struct Community;

impl Form for Community {
    ghost use Rattle.std.specs.Prelude.{ℕ, List};
    ghost use Rattle.eid_terminal.specs.Plans.{IsCommunity};
    ghost use Rattle.eid_perso.specs.Forms.{community};

    type Read = ArrayVec<u8, 16>;

    ghost Plain = { List ℕ };

    ghost plain = { λ bytes. bytes.items };

    ghost gives = { λ form value. community value };

    ghost valid = { λ form bytes. IsCommunity bytes };

    fn read(&self, value: &Value) -> Option<ArrayVec<u8, 16>> {
        forms::community(value)
    }
}

/// The word of a password.
#[derive(Drop)]
pub struct PasswordWord;

impl Form for PasswordWord {
    ghost use Rattle.std.specs.Prelude.{⊤};
    ghost use Rattle.eid_record.specs.declared.fields.Password.{Password};
    ghost use Rattle.eid_perso.specs.Forms.{password_word};

    type Read = Password;

    ghost Plain = { Password };

    ghost plain = { λ p. p };

    ghost gives = { λ form value. password_word value };

    ghost valid = { λ form p. ⊤ };

    fn read(&self, value: &Value) -> Option<Password> {
        forms::password_word(value)
    }
}

/// The decimal digits of a password.
#[derive(Drop)]
pub struct PasswordDigits {
    pub password: Password,
}

impl Form for PasswordDigits {
    ghost use Rattle.std.specs.Prelude.{ℕ, List};
    ghost use Rattle.eid_record.specs.Valid.{AreDigits};
    ghost use Rattle.eid_terminal.specs.Plans.{digits_of};
    ghost use Rattle.eid_perso.specs.Forms.{digits};

    type Read = ArrayVec<u8, 10>;

    ghost Plain = { List ℕ };

    ghost plain = { λ text. text.items };

    ghost gives = { λ form value. digits (digits_of form.password) value };

    ghost valid = { λ form text. AreDigits (digits_of form.password) text };

    fn read(&self, value: &Value) -> Option<ArrayVec<u8, 10>> {
        forms::password_digits(value, self.password)
    }
}
