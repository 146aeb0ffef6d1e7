//! The headers of each reply.

/// The headers after the status of each reply. No script runs in a page, no other site frames it or gets its forms, and
/// no cache keeps it.
pub(crate) const HEADERS: &str = "\
Content-Type: text/html; charset=utf-8\r
Content-Security-Policy: default-src 'none'; style-src 'unsafe-inline'; form-action 'self'; frame-ancestors 'none'; base-uri 'none'\r
X-Content-Type-Options: nosniff\r
Referrer-Policy: same-origin\r
Cache-Control: no-store\r
";
