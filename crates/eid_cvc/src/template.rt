//! Certificate holder authorization templates.
ghost use Rattle.std.specs.Prelude.{◌≡◌, ◌↔◌, ℕ, List, length, IfSome, IsSomeAnd, Some, option_map};
ghost use Rattle.eid_bits.specs.Template.{template_bytes};
ghost use Rattle.eid_cvc.specs.Templates.{template_in, template_value};

use eid_bits::Template;

/// What stands before the template in 7F4C {06 its type, 53 the template}.
const BEFORE_TEMPLATE: [u8; 13] = [0x06, 9, 0x04, 0x00, 0x7F, 0x00, 0x07, 3, 1, 2, 2, 0x53, 5];

/// The template in the value of an object 7F4C (BSI TR-03110-3). `None` comes exactly where it has another form.
pub fn read_template(value: &[u8]) -> Option<Template>
    ensures found { IfSome result (λ template. value.now ≡ template_value (template_bytes template)) }
    ensures only { (template : List ℕ) → length template ≡ 5 → value.now ≡ template_value template
        → IsSomeAnd result (λ found. template_bytes found ≡ template) }
    ensures value { option_map template_bytes result ≡ template_in value.now }
{
    let Some(bytes) = value.strip_prefix(&BEFORE_TEMPLATE) else {
        return None;
    };
    let Ok(template) = Template::from_bytes(bytes) else {
        return None;
    };
    Some(template)
}

/// The definition of the template in the value of an object 7F4C, as a function, gives exactly that template.
pub fn law_template()
    ensures { (value template : List ℕ) → template_in value ≡ Some template ↔ ((length template ≡ 5) × (value ≡ template_value template)) }
{}
