//! A case: a request, its body, and the rules of the operator.

use ill_browser::{Rules, Visit};
use std::alloc::Global;

/// The rules of an operator who wants a name.
const RULES: Rules<'static> = Rules {
    origin: "https://ill.example",
    is_open: false,
};

/// A request with its rules. Each text that a case does not say is as in `look` or `post`.
#[derive(Drop)]
pub struct Case<'a> {
    /// The texts that the web server gives of the request.
    pub visit: Visit<'a>,
    /// The rules of the operator.
    pub rules: Rules<'a>,
    /// The body of the request.
    pub body: &'a str,
}

impl<'a> Case<'a> {
    /// Returns a request of a page. All its texts but the method are empty.
    pub fn look() -> Case<'a> {
        Case {
            visit: Visit {
                method: "GET",
                path: "",
                query: "",
                site: "",
                origin: "",
                user: "",
                content_type: "",
                content_length: "",
            },
            rules: RULES,
            body: "",
        }
    }

    /// Returns a form with this body, as anna sends it from a page of the desk. The body `-` is empty. `length` is the
    /// text of its length.
    pub fn post(body: &'a str, length: &'a str) -> Case<'a> {
        Case {
            visit: Visit {
                method: "POST",
                path: "",
                query: "",
                site: "same-origin",
                origin: "",
                user: "anna",
                content_type: "application/x-www-form-urlencoded",
                content_length: length,
            },
            rules: RULES,
            body: if body == "-" { "" } else { body },
        }
    }

    /// Returns the number of fields in the form of the request that have `+`.
    pub fn spaced_fields(&self) -> usize {
        let form = if self.visit.method == "GET" {
            self.visit.query
        } else {
            self.body
        };
        let mut count: usize = 0;
        for field in form.split("&") {
            if field.contains("+") {
                count = count.saturating_add(1);
            }
        }
        count
    }

    /// Replaces the text that `word` names, as `NAME:TEXT`. Returns `None` if it names none.
    pub fn set(&mut self, word: &'a str) -> Option<()> {
        let (name, text) = word.split_once(":")?;
        match name {
            "open" => self.rules.is_open = true,
            "method" => self.visit.method = text,
            "path" => self.visit.path = text,
            "query" => self.visit.query = text,
            other => self.set_header(other, text)?,
        }
        Some(())
    }

    /// Replaces the text of a header, or of the user. Returns `None` if `name` names none.
    fn set_header(&mut self, name: &str, text: &'a str) -> Option<()> {
        match name {
            "site" => self.visit.site = text,
            "origin" => self.visit.origin = text,
            "user" => self.visit.user = text,
            "type" => self.visit.content_type = text,
            "length" => self.visit.content_length = text,
            _ => return None,
        }
        Some(())
    }
}

/// Returns the number of bytes in a body, in digits. The body `-` has none.
pub fn length_text(alloc: Global, body: &str) -> Option<String> {
    let size = if body == "-" { 0 } else { body.len() };
    format!(in alloc; "{size}").ok()
}
