//! A line with a host key.

ghost use Rattle.std.specs.Prelude.{◌≡◌};
ghost use Rattle.std.specs.Option.{option_map};
ghost use Rattle.known_hosts.specs.Entries.{entry, entry_with, entry_in};

use crate::parts::Fields;

/// The fields of a line that has a key which counts.
#[derive(Clone, Copy)]
pub struct Entry<'a> {
    /// The patterns of the hosts, or one host hashed.
    pub hosts: &'a [u8],
    /// The name of the key's type.
    pub type_name: &'a [u8],
    /// The base64 of the key's blob.
    pub encoded: &'a [u8],
    /// Whether the key is an authority, whose host certificates count in its place.
    pub authority: bool,
}

/// The entry of a host field and the fields behind it.
#[tactic(auto, unfolding(crate::specs::Entries::entry_with))]
fn entry_of<'a>(authority: bool, hosts: &'a [u8], fields: &mut Fields<'a>) -> Option<Entry<'a>>
    ensures { option_map entry result ≡ entry_with authority hosts.now fields.old }
{
    let type_name = fields.next_field()?;
    let encoded = fields.next_field()?;
    Some(Entry {
        hosts,
        type_name,
        encoded,
        authority,
    })
}

/// The entry that the line is, where it is one. Of lines with a marker those of authorities are.
#[tactic(auto, unfolding(crate::specs::Entries::entry_in, crate::specs::Entries::marked_entry))]
pub fn read_entry(line: &[u8]) -> Option<Entry<'_>>
    ensures { option_map entry result ≡ entry_in line.now }
{
    if line.starts_with(b"#") {
        return None;
    }
    let mut fields = Fields::of(line);
    let first = fields.next_field()?;
    if !first.starts_with(b"@") {
        return entry_of(false, first, &mut fields);
    }
    if first != b"@cert-authority".as_slice() {
        return None;
    }
    let hosts = fields.next_field()?;
    entry_of(true, hosts, &mut fields)
}
