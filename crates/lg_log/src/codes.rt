//! The codes of edits.
ghost use Rattle.std.specs.Prelude.{◌≡◌, ◌<◌, ◌≤◌, ◌^◌};
ghost use Rattle.lg_log.specs.Codes.{code_of, code_session, code_index, EditsHaveCodes, CodesAreOfEdits};

// A session has so many numbers for its codes.
const CODES: u64 = 1 << 32;

/// The code of an edit, by its session and its index in that session, both from 0: `(session + 1) * 2^32 + index`. There
/// are at most 64 sessions. No code is 0.
pub fn code(session: u32, index: u32) -> u64
    requires { session < 64 }
    ensures code { result ≡ code_of session index }
    ensures session { code_session result ≡ session }
    ensures index { code_index result ≡ index }
{
    (u64::from(session) + 1) * CODES + u64::from(index)
}

/// The session of a code.
pub fn session_of(code: u64) -> u32
    requires { 2 ^ 32 ≤ code }
    ensures { result ≡ code_session code }
{
    (code / CODES - 1) as u32
}

/// The index of a code in its session.
pub fn index_of(code: u64) -> u32
    ensures { result ≡ code_index code }
{
    (code % CODES) as u32
}

/// What holds of codes: each edit of a log has one, which tells its session and its index, and each code is one of an edit.
pub fn code_laws()
    ensures edits { EditsHaveCodes }
    ensures codes { CodesAreOfEdits }
{}
