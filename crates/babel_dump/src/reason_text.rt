//! The reasons for which TLVs are ignored, as they are named.
use crate::by_reason::CountedReason;
use babel_table::Report;
use babel_tlv::Reason;

/// The reasons, in the order of their checks.
pub(crate) const REASONS: [Reason; 16] = [
    Reason::Short,
    Reason::UnknownEncoding,
    Reason::WildcardFinite,
    Reason::WildcardPrefix,
    Reason::BadPlen,
    Reason::BadOmitted,
    Reason::NoDefault,
    Reason::ShortPrefix,
    Reason::BadSub,
    Reason::UnknownMandatory,
    Reason::TwoSources,
    Reason::BadSource,
    Reason::WildcardSource,
    Reason::NoRouterId,
    Reason::ReservedRouterId,
    Reason::NoNextHop,
];

impl CountedReason for Reason {
    type Report = Report;

    ghost use Rattle.babel_dump.specs.Ignored.{ignored_for};
    ghost use Rattle.babel_dump.specs.RunText.{reason_name};

    ghost counted = { ignored_for };

    ghost name_of = { reason_name };

    fn counted(self, report: &Report) -> Option<(u64, u64)> {
        report.ignored(self)
    }

    fn name(self) -> &'static str {
        match self {
            Reason::Short => "short",
            Reason::UnknownEncoding => "unknown-encoding",
            Reason::WildcardFinite => "wildcard-finite",
            Reason::WildcardPrefix => "wildcard-prefix",
            Reason::BadPlen => "bad-plen",
            Reason::BadOmitted => "bad-omitted",
            Reason::NoDefault => "no-default",
            Reason::ShortPrefix => "short-prefix",
            Reason::BadSub => "bad-sub",
            Reason::UnknownMandatory => "unknown-mandatory",
            Reason::TwoSources => "two-sources",
            Reason::BadSource => "bad-source",
            Reason::WildcardSource => "wildcard-source",
            Reason::NoRouterId => "no-router-id",
            Reason::ReservedRouterId => "reserved-router-id",
            Reason::NoNextHop => "no-next-hop",
        }
    }
}
