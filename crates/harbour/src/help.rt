// What --help prints.
pub const HELP: &str =
    "harbour plays a script, given on its standard input, and answers it line by line.

A line has one command; what stands behind a '#' is a comment. Texts are single words, digests are
64 hexadecimal digits, places count from 0.

  enter TEXT                        enters the text into the log
  top                               the top of the log's entries
  top COUNT                         the top of the first COUNT
  way PLACE COUNT                   the way of a place, among the first COUNT
  proof FROM TO                     the proof that the first TO begin with the first FROM
  leads PLACE COUNT TEXT DIGEST..   does this way lead from the text to the top of COUNT?
  goes-on FROM TO DIGEST..          does this proof lead to the tops of FROM and of TO?

A line that is refused is answered with a number and the cause, and changes nothing:
  1  no such command, or not as it is spoken
  2  a place or a count that isn't there
  6  a way or a proof that leads elsewhere

harbour show HEX prints in words the message whose bytes are given in hexadecimal digits; bytes
that are no message's are refused with 1.
";
