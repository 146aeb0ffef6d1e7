//! What a web server says of a request (RFC 3875, section 4.1), and what the operator says of all of them.

ghost use Rattle.std.specs.Prelude.{◌≡◌};
ghost use Rattle.ill_browser.specs.Visit.{body_size, form_size, has_user, is_form, is_look, is_origin, is_own, is_post, is_root, rules_shown, visit_shown};

use crate::body::size_said;
use crate::fault::VisitFault;

/// The texts of the environment that count. A text that is not there is empty.
#[derive(Clone, Copy)]
pub struct Visit<'a> {
    /// `REQUEST_METHOD`: `GET` looks at a page, and `POST` sends a form.
    pub method: &'a str,
    /// `PATH_INFO`: the path after that of the program.
    pub path: &'a str,
    /// `QUERY_STRING`: the fields in the URL.
    pub query: &'a str,
    /// `HTTP_SEC_FETCH_SITE`: the browser's word for the site whose page sent the request.
    pub site: &'a str,
    /// `HTTP_ORIGIN`: the origin of the page that sent the request.
    pub origin: &'a str,
    /// `REMOTE_USER`: the person who sent the request, as the web server knows them.
    pub user: &'a str,
    /// `CONTENT_TYPE`: the type of the body.
    pub content_type: &'a str,
    /// `CONTENT_LENGTH`: the number of bytes in the body.
    pub content_length: &'a str,
}

/// The rules of the operator for all requests.
#[derive(Clone, Copy)]
pub struct Rules<'a> {
    /// The origin of the pages, as browsers see it, such as `https://ill.example.org`. It is empty if the operator
    /// names none.
    pub origin: &'a str,
    /// Set if a form is taken though nobody is named who sent it.
    pub is_open: bool,
}

/// Returns the number of bytes that are read of the body, or the refusal of the request.
pub(crate) fn body_size(rules: &Rules<'_>, visit: &Visit<'_>) -> Result<usize, VisitFault>
    ensures { result ≡ body_size (rules_shown rules.now) (visit_shown visit.now) }
{
    if !is_root(visit.path) {
        Err(VisitFault::NoPage)
    } else if is_look(visit) {
        Ok(0)
    } else if is_post(visit) {
        form_size(rules, visit)
    } else {
        Err(VisitFault::Method)
    }
}

/// Returns true if the path is that of the program itself.
fn is_root(path: &str) -> bool
    ensures { result ≡ is_root path.now }
{
    path.is_empty() || path == "/"
}

/// Returns true if the request looks at a page.
pub(crate) fn is_look(visit: &Visit<'_>) -> bool
    ensures { result ≡ is_look (visit_shown visit.now) }
{
    visit.method == "GET"
}

/// Returns true if the request sends a form.
fn is_post(visit: &Visit<'_>) -> bool
    ensures { result ≡ is_post (visit_shown visit.now) }
{
    visit.method == "POST"
}

/// Returns the number of bytes that the request says its form has, or the refusal of the form.
fn form_size(rules: &Rules<'_>, visit: &Visit<'_>) -> Result<usize, VisitFault>
    ensures { result ≡ form_size (rules_shown rules.now) (visit_shown visit.now) }
{
    if !is_own(rules, visit) {
        Err(VisitFault::Foreign)
    } else if !has_user(rules, visit) {
        Err(VisitFault::NoUser)
    } else if !is_form(visit) {
        Err(VisitFault::NoForm)
    } else {
        size_said(visit.content_length.as_bytes())
    }
}

/// Returns true if a page of this program sent the request. `site` says so, or `origin` if `site` is empty.
fn is_own(rules: &Rules<'_>, visit: &Visit<'_>) -> bool
    ensures { result ≡ is_own (rules_shown rules.now) (visit_shown visit.now) }
{
    if visit.site.is_empty() {
        is_origin(rules, visit.origin)
    } else {
        visit.site == "same-origin"
    }
}

/// Returns true if `origin` is the operator's. If the operator names none, no origin is.
fn is_origin(rules: &Rules<'_>, origin: &str) -> bool
    ensures { result ≡ is_origin (rules_shown rules.now) origin.now }
{
    !rules.origin.is_empty() && origin == rules.origin
}

/// Returns true if somebody is named who sent the request, or the operator wants no name.
fn has_user(rules: &Rules<'_>, visit: &Visit<'_>) -> bool
    ensures { result ≡ has_user (rules_shown rules.now) (visit_shown visit.now) }
{
    rules.is_open || !visit.user.is_empty()
}

/// Returns true if the body is a form.
fn is_form(visit: &Visit<'_>) -> bool
    ensures { result ≡ is_form (visit_shown visit.now) }
{
    visit.content_type == "application/x-www-form-urlencoded"
}
