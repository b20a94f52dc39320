//! C tokens are spelled by their values.
ghost use Rattle.std.specs.Prelude.{◌≡◌, ℕ, ◌++◌, List, IsTrue, OnOk, OnErr};
ghost use Rattle.std.specs.List.{All};
ghost use Rattle.hv_toks.specs.Constants as constants;
ghost use Rattle.hv_ctoks.specs.ReadBack.{AreReadBack, IsPrintable, IsReadBack, Printed};
ghost use Rattle.hv_ctoks.specs.Spelling as spellings;
ghost use Rattle.hv_ctoks.specs.Spelling.{IsCutOff};
ghost use Rattle.hv_ctoks.specs.Tokens.{is_token};
ghost use Rattle.hv_ctoks.specs.declared.reserved.ReservedNames.{ReservedNames as ReservedOf};

use hv_base::{CTok, IntType, Memory, Text};

/// A byte as a backslash and three octal digits.
fn octal(byte: u8) -> [u8; 4]
    ensures { result ≡ spellings.octal byte }
{
    [
        b'\\',
        b'0' + byte / 64,
        b'0' + byte / 8 % 8,
        b'0' + byte % 8,
    ]
}

/// Whether a byte between such quotes is spelled as itself.
fn is_plain(quote: u8, byte: u8) -> bool
    ensures { result ≡ spellings.is_plain quote byte }
{
    hv_base::is_printable(byte) && byte != quote && byte != b'\\'
}

/// Spells a byte between such quotes.
fn spell_byte(out: &mut Text, quote: u8, byte: u8) -> Result<(), Memory>
    ensures ok { OnOk result (out.new ≡ out.old ++ spellings.printed_byte quote byte) }
    ensures unchanged { OnErr result (out.new ≡ out.old) }
{
    if is_plain(quote, byte) {
        out.add(byte)
    } else {
        out.extend_from_slice(&octal(byte))
    }
}

/// Spells bytes between such quotes.
fn spell_bytes(out: &mut Text, quote: u8, bytes: &[u8]) -> Result<(), Memory>
    ensures ok { OnOk result (out.new ≡ out.old ++ spellings.printed_bytes quote bytes.now) }
    ensures memory { OnErr result
        (IsCutOff out.old (spellings.printed_bytes quote bytes.now) out.new) }
{
    for byte in bytes {
        spell_byte(out, quote, *byte)?;
    }
    Ok(())
}

/// Spells bytes with quotes around them.
fn spell_quoted(out: &mut Text, quote: u8, bytes: &[u8]) -> Result<(), Memory>
    ensures ok { OnOk result (out.new ≡ out.old ++ spellings.quoted quote bytes.now) }
    ensures memory { OnErr result (IsCutOff out.old (spellings.quoted quote bytes.now) out.new) }
{
    out.add(quote)?;
    spell_bytes(out, quote, bytes)?;
    out.add(quote)
}

/// The byte of a `char` of this value.
fn byte_of(value: i32) -> u8
    ensures { result ≡ spellings.byte_of value }
{
    value.rem_euclid(256) as u8
}

/// The suffix of a constant of this type.
fn suffix_of(kind: IntType) -> &'static str
    ensures { result.now ≡ constants.printed_suffix kind }
{
    match kind {
        IntType::Int => "",
        IntType::UInt => "U",
        IntType::Long => "L",
        IntType::ULong => "UL",
        IntType::LongLong => "LL",
        IntType::ULongLong => "ULL",
    }
}

/// Spells a word or a sign as it is.
fn spell_word(out: &mut Text, word: &str) -> Result<(), Memory>
    ensures ok { OnOk result (out.new ≡ out.old ++ word.now) }
    ensures memory { OnErr result (IsCutOff out.old word.now out.new) }
{
    out.extend_from_slice(word.as_bytes())
}

/// Spells a name as it is.
fn spell_name(out: &mut Text, name: &Text) -> Result<(), Memory>
    ensures ok { OnOk result (out.new ≡ out.old ++ name.now) }
    ensures memory { OnErr result (IsCutOff out.old name.now out.new) }
{
    out.extend_from_slice(name.as_slice())
}

/// Spells an integer constant.
fn spell_int(out: &mut Text, value: u64, kind: IntType) -> Result<(), Memory>
    ensures ok { OnOk result (out.new ≡ out.old ++ constants.printed_int value kind) }
    ensures memory { OnErr result (IsCutOff out.old (constants.printed_int value kind) out.new) }
{
    let mut buffer = itoa::Buffer::new();
    out.extend_from_slice(buffer.format(value).as_bytes())?;
    out.extend_from_slice(suffix_of(kind).as_bytes())
}

/// Spells a C token.
fn spell_token(out: &mut Text, tok: &CTok) -> Result<(), Memory>
    ensures ok { OnOk result (out.new ≡ out.old ++ spellings.spelling tok.now) }
    ensures memory { OnErr result (IsCutOff out.old (spellings.spelling tok.now) out.new) }
{
    match tok {
        CTok::Keyword(word) => spell_word(out, word.spelling()),
        CTok::Name(text) => spell_name(out, text),
        CTok::Int { value, kind } => spell_int(out, *value, *kind),
        CTok::Char(value) => spell_quoted(out, b'\'', &[byte_of(*value)]),
        CTok::Str(bytes) => spell_quoted(out, b'"', bytes.as_slice()),
        CTok::Punct(sign) => spell_word(out, sign.spelling()),
    }
}

/// Appends the spelling of a C token (6.4); where memory runs out, a part of it from its beginning.
pub fn spell(out: &mut Text, tok: &CTok) -> Result<(), Memory>
    ensures ok { OnOk result (out.new ≡ out.old ++ spellings.spelling tok.now) }
    ensures memory { OnErr result (IsCutOff out.old (spellings.spelling tok.now) out.new) }
    // the spelling is one preprocessing token, which becomes this C token again
    ensures read_back { (reserved : ReservedOf) → IsTrue (is_token reserved tok.now)
        → IsReadBack reserved tok.now }
    // so are the tokens of a file, with a blank or a newline after each
    ensures are_read_back { (reserved : ReservedOf) (file : ℕ) (printed : List Printed)
        → All (IsPrintable reserved) printed → AreReadBack reserved file printed }
{
    spell_token(out, tok)
}
