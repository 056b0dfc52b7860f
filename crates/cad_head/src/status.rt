//! The statuses of replies.

/// The status of a reply with a body (RFC 9110, section 15).
#[derive(Clone, Copy, Debug, PartialEq, Eq)]
pub enum Status {
    /// 200: the reply has what was asked for.
    Ok,
    /// 400: the head, the target or the parameters are refused.
    BadRequest,
    /// 404: there is no such resource, collection or feature.
    NotFound,
    /// 405: the resource has no such method.
    MethodNotAllowed,
}

impl Status {
    ghost use Rattle.std.specs.Prelude.{◌≡◌};
    ghost use Rattle.cad_head.specs.Replies.{status_text, allow_line};

    /// The status code and its reason phrase.
    pub(crate) fn text(self) -> &'static str
        ensures { result.now ≡ status_text self }
    {
        match self {
            Status::Ok => "200 OK",
            Status::BadRequest => "400 Bad Request",
            Status::NotFound => "404 Not Found",
            Status::MethodNotAllowed => "405 Method Not Allowed",
        }
    }

    /// The line that names the methods of the resource, if the status requires it.
    pub(crate) fn allow_line(self) -> &'static str
        ensures { result.now ≡ allow_line self }
    {
        match self {
            Status::MethodNotAllowed => "Allow: GET\r\n",
            Status::Ok | Status::BadRequest | Status::NotFound => "",
        }
    }
}
