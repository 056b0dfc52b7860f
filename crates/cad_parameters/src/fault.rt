//! Why parameters are refused, except for the filter.

use thiserror::Error;

/// Why parameters are refused, except for the filter, whose faults are those of `cql_filter`. The faults are looked for in this order:
/// those before `Revision`, then the filter's, then the others.
#[derive(Clone, Copy, Debug, PartialEq, Eq, Error)]
pub enum ParameterFault {
    /// A parameter has an unknown name.
    #[error("a parameter has an unknown name")]
    Unknown,
    /// A parameter comes more than once.
    #[error("a parameter comes more than once")]
    Repeated,
    /// `limit` is no number from 1.
    #[error("the limit is no number from 1")]
    Limit,
    /// `datetime` is neither a moment nor an interval.
    #[error("the datetime is neither a moment nor an interval")]
    Datetime,
    /// `bbox` is no box.
    #[error("the bbox is no box")]
    Bbox,
    /// `filter-lang` is not `cql2-text`.
    #[error("the language of the filter is unknown")]
    FilterLang,
    /// `revision` is no number of 1 to 18 digits.
    #[error("the revision is no number of 1 to 18 digits")]
    Revision,
    /// `after` is no identifier.
    #[error("the identifier to start after is none")]
    After,
}
