ghost use Rattle.std.specs.Prelude.{◌≡◌, length, find};
ghost use Rattle.std.specs.Str.{bytes_eq};
ghost use Rattle.agg_types.specs.Col.{all_cols, col_id, col_name, info, is_rate, is_wide, place};

/// How many columns there are.
pub const COLUMNS: usize = 21;

/// The greatest number of a column's data type in the peers protocol.
pub const LAST_TYPE: u64 = 26;

/// The greatest number of the data types that are single values in every version of the protocol:
/// behind it stand a dictionary's entry (19) and arrays (22 to 24), too.
pub const LAST_BASIC_TYPE: u64 = 18;

/// A column of stick tables that can be added up over a fleet: the stored data types of HAProxy's
/// Configuration Manual ("stick-table", `store`), save those that are no sums.
///
/// A rate is named with its period, in ms. Columns are ordered by the number that the peers
/// protocol gives their data type.
#[derive(Clone, Copy, Debug, PartialEq, Eq, PartialOrd, Ord)]
pub enum Col {
    /// First general purpose counter.
    Gpc0,
    /// Rate of increments of the first general purpose counter.
    Gpc0Rate,
    /// Connections received.
    ConnCnt,
    /// Rate of connections.
    ConnRate,
    /// Connections open now.
    ConnCur,
    /// Sessions accepted.
    SessCnt,
    /// Rate of sessions.
    SessRate,
    /// HTTP requests.
    HttpReqCnt,
    /// Rate of HTTP requests.
    HttpReqRate,
    /// HTTP requests that ended in a client error.
    HttpErrCnt,
    /// Rate of HTTP client errors.
    HttpErrRate,
    /// Bytes from clients; 64 bits wide.
    BytesInCnt,
    /// Rate of bytes from clients.
    BytesInRate,
    /// Bytes to clients; 64 bits wide.
    BytesOutCnt,
    /// Rate of bytes to clients.
    BytesOutRate,
    /// Second general purpose counter.
    Gpc1,
    /// Rate of increments of the second general purpose counter.
    Gpc1Rate,
    /// HTTP responses that failed.
    HttpFailCnt,
    /// Rate of failed HTTP responses.
    HttpFailRate,
    /// Glitches of HTTP/2 and HTTP/3 connections.
    GlitchCnt,
    /// Rate of glitches.
    GlitchRate,
}

/// What the values of a column are.
#[derive(Clone, Copy, Debug, PartialEq, Eq)]
pub enum ColKind {
    /// A count of 32 bits.
    Count,
    /// A count of 64 bits.
    WideCount,
    /// A rate over a period.
    Rate,
}

/// What names a column and tells its values.
#[derive(Clone, Copy, Debug, PartialEq, Eq)]
pub struct ColInfo {
    /// The data type's number in the peers protocol.
    pub id: u8,
    /// The name that HAProxy gives it.
    pub name: &'static str,
    /// What its values are.
    pub kind: ColKind,
}

impl ColInfo {
    fn of(id: u8, name: &'static str, kind: ColKind) -> ColInfo
        ensures id { result.id ≡ id }
        ensures name { result.name.now ≡ name.now }
        ensures kind { result.kind ≡ kind }
    {
        ColInfo { id, name, kind }
    }
}

impl Col {
    /// Every column, in order.
    pub const ALL: [Col; COLUMNS] = [
        Col::Gpc0,
        Col::Gpc0Rate,
        Col::ConnCnt,
        Col::ConnRate,
        Col::ConnCur,
        Col::SessCnt,
        Col::SessRate,
        Col::HttpReqCnt,
        Col::HttpReqRate,
        Col::HttpErrCnt,
        Col::HttpErrRate,
        Col::BytesInCnt,
        Col::BytesInRate,
        Col::BytesOutCnt,
        Col::BytesOutRate,
        Col::Gpc1,
        Col::Gpc1Rate,
        Col::HttpFailCnt,
        Col::HttpFailRate,
        Col::GlitchCnt,
        Col::GlitchRate,
    ];

    /// The number, the name and the kind: a column a line.
    pub fn info(self) -> ColInfo
        ensures id { result.id ≡ (info self).id }
        ensures name { result.name.now ≡ (info self).name }
        ensures kind { result.kind ≡ (info self).kind }
    {
        match self {
            Col::Gpc0 => ColInfo::of(2, "gpc0", ColKind::Count),
            Col::Gpc0Rate => ColInfo::of(3, "gpc0_rate", ColKind::Rate),
            Col::ConnCnt => ColInfo::of(4, "conn_cnt", ColKind::Count),
            Col::ConnRate => ColInfo::of(5, "conn_rate", ColKind::Rate),
            Col::ConnCur => ColInfo::of(6, "conn_cur", ColKind::Count),
            Col::SessCnt => ColInfo::of(7, "sess_cnt", ColKind::Count),
            Col::SessRate => ColInfo::of(8, "sess_rate", ColKind::Rate),
            Col::HttpReqCnt => ColInfo::of(9, "http_req_cnt", ColKind::Count),
            Col::HttpReqRate => ColInfo::of(10, "http_req_rate", ColKind::Rate),
            Col::HttpErrCnt => ColInfo::of(11, "http_err_cnt", ColKind::Count),
            Col::HttpErrRate => ColInfo::of(12, "http_err_rate", ColKind::Rate),
            Col::BytesInCnt => ColInfo::of(13, "bytes_in_cnt", ColKind::WideCount),
            Col::BytesInRate => ColInfo::of(14, "bytes_in_rate", ColKind::Rate),
            Col::BytesOutCnt => ColInfo::of(15, "bytes_out_cnt", ColKind::WideCount),
            Col::BytesOutRate => ColInfo::of(16, "bytes_out_rate", ColKind::Rate),
            Col::Gpc1 => ColInfo::of(17, "gpc1", ColKind::Count),
            Col::Gpc1Rate => ColInfo::of(18, "gpc1_rate", ColKind::Rate),
            Col::HttpFailCnt => ColInfo::of(20, "http_fail_cnt", ColKind::Count),
            Col::HttpFailRate => ColInfo::of(21, "http_fail_rate", ColKind::Rate),
            Col::GlitchCnt => ColInfo::of(25, "glitch_cnt", ColKind::Count),
            Col::GlitchRate => ColInfo::of(26, "glitch_rate", ColKind::Rate),
        }
    }

    /// The data type's number in the peers protocol.
    pub fn id(self) -> u8
        ensures { result ≡ col_id self }
    {
        self.info().id
    }

    /// The name that HAProxy gives it.
    pub fn name(self) -> &'static str
        ensures { result.now ≡ col_name self }
    {
        self.info().name
    }

    /// Where it stands among all.
    pub fn place(self) -> usize
        ensures { result ≡ place self }
    {
        self as usize
    }

    /// The column of a name, or none.
    pub fn from_name(name: &[u8]) -> Option<Col>
        ensures { result ≡ find (λ col. bytes_eq (col_name col) name.now) all_cols }
    {
        Col::ALL
            .iter()
            .copied()
            .find(|col| col.name().as_bytes() == name)
    }

    /// Whether it is a rate over a period, not a count.
    pub fn is_rate(self) -> bool
        ensures { result ≡ is_rate self }
    {
        match self.info().kind {
            ColKind::Rate => true,
            ColKind::Count | ColKind::WideCount => false,
        }
    }

    /// Whether its count has 64 bits, not 32.
    pub fn is_wide(self) -> bool
        ensures { result ≡ is_wide self }
    {
        match self.info().kind {
            ColKind::WideCount => true,
            ColKind::Count | ColKind::Rate => false,
        }
    }
}
