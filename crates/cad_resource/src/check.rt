//! Why a request is refused before its query is read.

use cad_head::Status;
use thiserror::Error;

/// The checks that a request can fail before its query is read, in the order in which they are made.
#[derive(Clone, Copy, Debug, PartialEq, Eq, Error)]
pub enum Check {
    /// The bytes begin with no head, no matter what follows them.
    #[error("the bytes are no request head")]
    BadHead,
    /// A request of HTTP/1.1 has no Host field, or more than one.
    #[error("the request has not one host")]
    Host,
    /// A body is announced.
    #[error("a body is announced")]
    Body,
    /// The target does not begin with a slash, or has a character that is not allowed there.
    #[error("the target is no path")]
    Target,
    /// The path names no resource.
    #[error("the path names no resource")]
    NoResource,
    /// The method is not GET.
    #[error("the method is not GET")]
    Method,
    /// There is no collection of that name.
    #[error("there is no such collection")]
    NoCollection,
}

impl Check {
    ghost use Rattle.std.specs.Prelude.{◌≡◌};
    ghost use Rattle.cad_resource.specs.Checks as spec;
    ghost use Rattle.cad_resource.specs.Checks.{word_of, status_of};

    /// The word in the body of the refusal.
    pub fn word(self) -> &'static str
        ensures { result.now ≡ word_of self }
    {
        match self {
            Check::BadHead => "bad-head",
            Check::Host => "host",
            Check::Body => "body",
            Check::Target => "target",
            Check::NoResource => "no-resource",
            Check::Method => "method",
            Check::NoCollection => "no-collection",
        }
    }

    /// The status of the refusal.
    pub fn status(self) -> Status
        ensures { result ≡ status_of self }
    {
        match self {
            Check::BadHead | Check::Host | Check::Body | Check::Target => Status::BadRequest,
            Check::NoResource | Check::NoCollection => Status::NotFound,
            Check::Method => Status::MethodNotAllowed,
        }
    }

    /// Whether the connection ends after the refusal, since it is not known where the next request begins.
    pub fn ends_connection(self) -> bool
        ensures { result ≡ spec.ends_connection self }
    {
        match self {
            Check::BadHead | Check::Host | Check::Body => true,
            Check::Target | Check::NoResource | Check::Method | Check::NoCollection => false,
        }
    }
}
