//! Questions about personalisation and the plans of terminals. A question has changes to one configuration or to one
//! plan, parted by `|`: `KEY` leaves the key out, `KEY VALUE` gives it another value, and `KEY file:N` so many bytes 00.
use crate::words::{self, Piece, Unanswered, bytes, line, number, shown, text, word};
use eid_perso::{Config, ConfigError, image_of, read_config, read_plan, show_text};
use std::alloc::Global;

/// The keys and values of the configuration.
#[rattlefmt::skip]
const BASE: [(&str, &str); 17] = [
    ("pin", "\"123456\""),
    ("can", "\"654321\""),
    ("puk", "\"0123456789\""),
    ("date", "\"260101\""),
    ("trust_name", "\"DECVCAAT00001\""),
    ("trust_template", "\"FE1FFFFF37\""),
    ("trust_key", "\"0400000000000000000000000000000000000000000000000000000000000000230000000000000000000000000000000000000000000000000000000000000000\""),
    ("ca_secret", "\"0000000000000000000000000000000000000000000000000000000000000009\""),
    ("ri_secret", "\"000000000000000000000000000000000000000000000000000000000000000b\""),
    ("card_access", "\"3100\""),
    ("card_security", "\"3000\""),
    ("dg3", "\"3230333031323331\""),
    ("dg4", "\"4552494b41\""),
    ("dg5", "\"4d55535445524d414e4e\""),
    ("dg8", "\"3139393030333135\""),
    ("dg17", "\"0000000000000000\""),
    ("dg18", "\"02761100000000\""),
];

/// The keys and values of the plan, which a chip of that configuration carries out.
#[rattlefmt::skip]
const PLAN: [(&str, &str); 12] = [
    ("can_first", "\"654321\""),
    ("password", "\"pin\""),
    ("value", "\"123456\""),
    ("template", "\"0000000801\""),
    ("certificates", "[\"7f4e819c5f290100420d444543564341415430303030317f494f060a04007f00070202020203864104000000000000000000000000000000000000000000000000000000000000005500000000000000000000000000000000000000000000000000000000000000005f200d444554455354445630303030317f4c12060904007f0007030102025305be1fffff375f25060206000100015f24060206010203015f3740b619805ede34e2fa887ae1a6ad355afeff83df295d0546c09056bfc2c979de6f0000000000000000000000000000000000000000000000000000000000000000\", \"7f4e81cd5f290100420d444554455354445630303030317f494f060a04007f00070202020203864104000000000000000000000000000000000000000000000000000000000000004100000000000000000000000000000000000000000000000000000000000000005f200d44455445524d415430303030317f4c12060904007f000703010202530500000098075f25060206000100015f2406020601020301652f732d060904007f0007030103028020952f59897756d1ce2bd58a29819f5d6e2d8d7b5bba000714dc47239afc624c825f3740148c82b765898813d144fa4c60686b31c25f1eb8875f8e47738a7176e5d4cff40000000000000000000000000000000000000000000000000000000000000000\"]"),
    ("terminal_secret", "\"000000000000000000000000000000000000000000000000000000000000000d\""),
    ("chip_key", "\"04000000000000000000000000000000000000000000000000000000000000002d0000000000000000000000000000000000000000000000000000000000000000\""),
    ("age", "\"20001231\""),
    ("validity", "\"20260101\""),
    ("community", "\"02761100000000\""),
    ("sector", "\"0400000000000000000000000000000000000000000000000000000000000000230000000000000000000000000000000000000000000000000000000000000000\""),
    ("requests", "[\"dg1\", \"age\", \"validity\", \"community\", \"ri\", \"dg21\"]"),
];

/// The key that a change is of.
fn key_of(change: &str) -> &str {
    match change.split_once(' ') {
        Some((key, _)) => key,
        None => change,
    }
}

/// Whether one of the changes is of that key.
fn is_changed(key: &str, changes: &str) -> bool {
    for change in changes.split('|') {
        if key_of(change) == key {
            return true;
        }
    }
    false
}

/// Appends texts.
fn put_texts(document: &mut String, texts: &[&str]) -> Result<(), Unanswered> {
    for text in texts {
        document.push_str(text)?;
    }
    Ok(())
}

/// Appends the line of a key.
fn put_line(document: &mut String, key: &str, value: &str) -> Result<(), Unanswered> {
    put_texts(document, &[key, " = ", value, "\n"])
}

/// Appends so many bytes 00 in hexadecimal.
fn put_zeros(document: &mut String, size: u32) -> Result<(), Unanswered> {
    for _ in 0..size {
        document.push_str("00")?;
    }
    Ok(())
}

/// Appends the line of a file of so many bytes.
fn put_file(document: &mut String, key: &str, size: u32) -> Result<(), Unanswered> {
    put_texts(document, &[key, " = '"])?;
    put_zeros(document, size)?;
    put_texts(document, &["'\n"])
}

/// Appends the line that a change gives, if it gives one.
fn put_change(document: &mut String, change: &str) -> Result<(), Unanswered> {
    let Some((key, value)) = change.split_once(' ') else {
        return Ok(());
    };
    match value.strip_prefix("file:") {
        Some(size) => put_file(document, key, number(size)?),
        None => put_line(document, key, value),
    }
}

/// Appends the line of a key, if none of the changes is of it.
fn put_kept(
    document: &mut String,
    key: &str,
    value: &str,
    changes: &str,
) -> Result<(), Unanswered> {
    if is_changed(key, changes) {
        return Ok(());
    }
    put_line(document, key, value)
}

/// Appends the lines that no change is of.
fn put_all_kept(
    document: &mut String,
    base: &[(&str, &str)],
    changes: &str,
) -> Result<(), Unanswered> {
    for (key, value) in base {
        put_kept(document, key, value, changes)?;
    }
    Ok(())
}

/// Appends the lines that the changes give.
fn put_changes(document: &mut String, changes: &str) -> Result<(), Unanswered> {
    for change in changes.split('|') {
        put_change(document, change)?;
    }
    Ok(())
}

/// The text of these keys and values with these changes.
fn changed(alloc: Global, base: &[(&str, &str)], changes: &str) -> Result<String, Unanswered> {
    let mut document = String::new(alloc);
    put_all_kept(&mut document, base, changes)?;
    put_changes(&mut document, changes)?;
    Ok(document)
}

/// The key that a reading refused.
pub fn refused(alloc: Global, error: ConfigError) -> words::Answer {
    match error {
        ConfigError::Bad { key } => line(
            alloc,
            &[Piece::Text("key "), Piece::Number(u32::from(key))],
        ),
        ConfigError::NoMemory => Err(Unanswered::NoMemory),
    }
}

/// Whether a text is read, or the key that is refused.
fn read(alloc: Global, document: &[u8]) -> words::Answer {
    match read_config(alloc, document) {
        Ok(_) => word(alloc, "read"),
        Err(error) => refused(alloc, error),
    }
}

/// `config CHANGES`: whether the configuration with these changes is read, or the key that is refused.
pub fn config(alloc: Global, changes: &str) -> words::Answer {
    let document = changed(alloc, &BASE, changes)?;
    read(alloc, document.as_bytes())
}

/// The text of the plan with these changes.
pub fn plan_text(alloc: Global, changes: &str) -> Result<String, Unanswered> {
    changed(alloc, &PLAN, changes)
}

/// `plan CHANGES`: whether the plan with these changes is read, or the key that is refused.
pub fn plan(alloc: Global, changes: &str) -> words::Answer {
    let document = plan_text(alloc, changes)?;
    match read_plan(alloc, document.as_bytes()) {
        Ok(_) => word(alloc, "read"),
        Err(error) => refused(alloc, error),
    }
}

/// `document TEXT`: the same of a whole text, in which `|` stands for LF.
pub fn document(alloc: Global, words: &str) -> words::Answer {
    let document = text(alloc, words)?;
    read(alloc, &document)
}

/// `document-in BYTES`: the same of a whole text by its bytes.
pub fn document_in(alloc: Global, word: &str) -> words::Answer {
    let document = bytes(alloc, word)?;
    read(alloc, &document)
}

/// `image CHANGES`: the image of the configuration with these changes.
pub fn image(alloc: Global, changes: &str) -> words::Answer {
    let document = changed(alloc, &BASE, changes)?;
    match read_config(alloc, document.as_bytes()) {
        Ok(config) => shown(alloc, &image_of(alloc, &config)?),
        Err(error) => refused(alloc, error),
    }
}

/// `show CHANGES`: the text that shows the record of the configuration with these changes, with `|` for LF.
pub fn show(alloc: Global, changes: &str) -> words::Answer {
    let document = changed(alloc, &BASE, changes)?;
    match read_config(alloc, document.as_bytes()) {
        Ok(config) => shown_record(alloc, &config),
        Err(error) => refused(alloc, error),
    }
}

/// The text that shows the record of a configuration, with `|` for LF.
fn shown_record(alloc: Global, config: &Config) -> words::Answer {
    let text = show_text(alloc, &config.kept, config.layout)?;
    match std::str::from_utf8(&text) {
        Ok(text) => Ok(text.replace(alloc, "\n", "|")?),
        Err(_) => Err(Unanswered::Unclear),
    }
}
