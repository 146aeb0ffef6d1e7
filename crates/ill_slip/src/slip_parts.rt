//! The constant texts of a slip. No text here is written by a user.

/// The text before the item.
pub(crate) const PAGE: &str = "\
<!DOCTYPE html>
<html lang=\"en\">
<head>
<meta charset=\"utf-8\">
<meta name=\"viewport\" content=\"width=device-width, initial-scale=1\">
<meta http-equiv=\"Content-Security-Policy\" content=\"default-src 'none'; style-src 'unsafe-inline'\">
<title>Slip of a loan</title>
<style>
@page { size: 105mm 148mm; margin: 0 }
:root { color-scheme: light }
* { box-sizing: border-box }
body { display: flex; flex-direction: column; width: 105mm; max-width: 100%; min-height: 147mm; margin: 0 }
body { padding: 30px; font: 11pt/1.3 system-ui, sans-serif; color: #000; background: #fff; overflow-wrap: anywhere }
h1 { margin: 0 0 2mm; font-size: 14pt; line-height: 1.25; text-align: left }
p, dd { margin: 0 }
dl { display: grid; grid-template-columns: auto 1fr; gap: 1mm 4mm; margin: 3mm 0 5mm }
dd { font-weight: bold }
svg { display: block; flex: none; max-width: 100%; height: 14mm; margin-bottom: 5mm }
section { flex: auto; min-height: 20mm; padding: 1mm 2mm; border: 1px solid #000 }
</style>
</head>
<body>
<h1 dir=\"auto\">";

/// The text after the item, before the role.
pub(crate) const ROLE: &str = "</h1>\n<p>";

/// The text after the role, before the group qualifier.
pub(crate) const GROUP: &str = "</p>\n<dl>\n<dt>Group</dt><dd>";

/// The text after the group qualifier, before the transaction qualifier.
pub(crate) const TRANSACTION: &str = "</dd>\n<dt>Transaction</dt><dd>";

/// The text after the transaction qualifier, before a due date.
pub(crate) const DUE: &str = "</dd>\n<dt>Due</dt><dd>";

/// The text after the last name or date.
pub(crate) const NAMED: &str = "</dd>\n</dl>\n";

/// The text before the width of a Code 128.
pub(crate) const CODE: &str = "\
<svg role=\"img\" aria-label=\"Code 128 of both names\" preserveAspectRatio=\"none\" width=\"";

/// The text after the width, before the width of the view.
pub(crate) const VIEW: &str = "\" height=\"50\" viewBox=\"0 0 ";

/// The text after the width of the view, before the bars. The quiet zone is ten modules wide.
pub(crate) const BARS: &str = " 50\"><path stroke=\"#000\" stroke-width=\"50\" d=\"M10 25";

/// The text after the bars.
pub(crate) const CODE_END: &str = "\"/></svg>\n";

/// The text that ends a slip, with room for a note.
pub(crate) const NOTE: &str = "<section>Note</section>\n</body>\n</html>\n";
