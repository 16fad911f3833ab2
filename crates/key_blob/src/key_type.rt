//! The table of key types (docs/PROTOCOL.md, "Keys"): names, fields, algorithms and sizes.

ghost use Rattle.std.specs.Prelude.{◌≡◌, []};
ghost use Rattle.key_blob.specs.KeyTypes.{key_type, certified_type, type_of, sized_type, ecdsa_type, form_named};
ghost use Rattle.key_blob.specs.Rows.{line_of, fields_of};

use crate::form::Form;
use crate::kind::KeyKind;

/// What a field may hold.
#[derive(Clone, Copy)]
pub enum Field {
    Any,
    Number,
    Sized(usize),
    Text(&'static [u8]),
}

/// A line of the table of types.
#[derive(Clone, Copy)]
pub struct KeyType {
    pub name: &'static [u8],
    /// The public fields of a blob. Of a reversed type they are alike, so that their order does not show here.
    pub public: &'static [Field],
    /// The public fields of an addition.
    pub added: &'static [Field],
    /// Whether an addition has the public fields in the opposite order of a blob.
    pub is_reversed: bool,
    /// The public fields that an addition has behind a certificate.
    pub again: &'static [Field],
    pub private: &'static [Field],
    pub other_algorithms: &'static [&'static [u8]],
    pub word: &'static str,
    pub bits: Option<u64>,
}

const FORMS: [Form; 11] = [
    Form::Plain(KeyKind::Ed25519),
    Form::Plain(KeyKind::Rsa),
    Form::Plain(KeyKind::Nistp256),
    Form::Plain(KeyKind::Nistp384),
    Form::Plain(KeyKind::Nistp521),
    Form::Plain(KeyKind::StandIn),
    Form::Certified(KeyKind::Ed25519),
    Form::Certified(KeyKind::Rsa),
    Form::Certified(KeyKind::Nistp256),
    Form::Certified(KeyKind::Nistp384),
    Form::Certified(KeyKind::Nistp521),
];

/// The line of a type.
pub fn row(form: Form) -> KeyType
    ensures { line_of result ≡ type_of form }
{
    match form {
        Form::Plain(kind) => plain_row(kind),
        Form::Certified(kind) => certified_row(kind),
    }
}

/// The line of a kind's own type.
pub fn plain_row(kind: KeyKind) -> KeyType
    ensures { line_of result ≡ key_type kind }
{
    match kind {
        KeyKind::Ed25519 => sized(b"ssh-ed25519", &[Field::Sized(64)], "ED25519"),
        KeyKind::Rsa => KeyType {
            name: b"ssh-rsa",
            public: &[Field::Any, Field::Any],
            added: &[Field::Number, Field::Number],
            is_reversed: true,
            again: &[],
            private: &[Field::Number, Field::Number, Field::Number, Field::Number],
            other_algorithms: &[b"rsa-sha2-256", b"rsa-sha2-512"],
            word: "RSA",
            bits: None,
        },
        KeyKind::Nistp256 => ecdsa(
            b"ecdsa-sha2-nistp256",
            &[Field::Text(b"nistp256"), Field::Any],
            256,
        ),
        KeyKind::Nistp384 => ecdsa(
            b"ecdsa-sha2-nistp384",
            &[Field::Text(b"nistp384"), Field::Any],
            384,
        ),
        KeyKind::Nistp521 => ecdsa(
            b"ecdsa-sha2-nistp521",
            &[Field::Text(b"nistp521"), Field::Any],
            521,
        ),
        KeyKind::StandIn => sized(
            b"keyed-sha256@example.com",
            &[Field::Sized(32)],
            "KEYED-SHA256",
        ),
    }
}

fn sized(name: &'static [u8], private: &'static [Field], word: &'static str) -> KeyType
    ensures { line_of result ≡
        record (sized_type name.now 0 word.now) { private = fields_of private.now } }
{
    KeyType {
        name,
        public: &[Field::Sized(32)],
        added: &[Field::Sized(32)],
        is_reversed: false,
        again: &[],
        private,
        other_algorithms: &[],
        word,
        bits: Some(256),
    }
}

fn ecdsa(name: &'static [u8], public: &'static [Field], bits: u64) -> KeyType
    ensures { line_of result ≡
        record (ecdsa_type name.now [] bits) { public = fields_of public.now; added = fields_of public.now } }
{
    KeyType {
        name,
        public,
        added: public,
        is_reversed: false,
        again: &[],
        private: &[Field::Number],
        other_algorithms: &[],
        word: "ECDSA",
        bits: Some(bits),
    }
}

/// The line of the certificates that carry keys of a kind. The stand-in kind has its own.
fn certified_row(kind: KeyKind) -> KeyType
    ensures { line_of result ≡ certified_type kind }
{
    let plain = plain_row(kind);
    match kind {
        KeyKind::Ed25519 => KeyType {
            name: b"ssh-ed25519-cert-v01@openssh.com",
            again: &[Field::Sized(32)],
            word: "ED25519-CERT",
            ..plain
        },
        KeyKind::Rsa => KeyType {
            name: b"ssh-rsa-cert-v01@openssh.com",
            other_algorithms: &[
                b"rsa-sha2-256-cert-v01@openssh.com",
                b"rsa-sha2-512-cert-v01@openssh.com",
            ],
            word: "RSA-CERT",
            ..plain
        },
        KeyKind::Nistp256 => KeyType {
            name: b"ecdsa-sha2-nistp256-cert-v01@openssh.com",
            word: "ECDSA-CERT",
            ..plain
        },
        KeyKind::Nistp384 => KeyType {
            name: b"ecdsa-sha2-nistp384-cert-v01@openssh.com",
            word: "ECDSA-CERT",
            ..plain
        },
        KeyKind::Nistp521 => KeyType {
            name: b"ecdsa-sha2-nistp521-cert-v01@openssh.com",
            word: "ECDSA-CERT",
            ..plain
        },
        KeyKind::StandIn => plain,
    }
}

/// The type that has this name.
#[tactic(auto, unfolding(crate::specs::KeyTypes::form_named))]
pub fn form_of_name(name: &[u8]) -> Option<Form>
    ensures { result ≡ form_named name.now }
{
    FORMS.iter().copied().find(|form| row(*form).name == name)
}
