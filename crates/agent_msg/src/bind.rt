//! How a request to bind a connection begins: OpenSSH's PROTOCOL.agent, "session-bind@openssh.com
//! extension".

ghost use Rattle.std.specs.Prelude.{◌≡◌, ◌↔◌, IsTrue};
ghost use Rattle.agent_msg.specs.Requests.{NamesBind, names_bind, session_bind};

/// The name of the extension that binds a connection to a host.
#[tactic(auto, unfolding(crate::specs::Requests::session_bind))]
pub fn session_bind() -> &'static [u8]
    ensures { result.now ≡ session_bind }
{
    b"session-bind@openssh.com".as_slice()
}

/// Whether `body` begins as a request to bind, whatever follows: it needn't be one that is read.
pub fn names_bind(body: &[u8]) -> bool
    ensures value { result ≡ names_bind body.now }
    ensures names { IsTrue result ↔ NamesBind body.now }
{
    body.starts_with(b"\x1b\0\0\0\x18session-bind@openssh.com")
}
