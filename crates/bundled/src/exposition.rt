//! Counts in the text format that Prometheus reads.
use std::alloc::{AllocError, Global};

/// What Prometheus calls a metric family: counts of one kind.
struct Family {
    /// The name of its count; the front of their names, if there are many.
    name: &'static str,
    metric: &'static str,
    /// What the rest of a name is; nothing, if there is one count.
    label: &'static str,
    kind: &'static str,
    help: &'static str,
}

static FAMILIES: [Family; 11] = [
    Family {
        name: "seconds",
        metric: "bundled_uptime_seconds",
        label: "",
        kind: "gauge",
        help: "Seconds since the server began.",
    },
    Family {
        name: "connections_open",
        metric: "bundled_connections_open",
        label: "",
        kind: "gauge",
        help: "Connections that are open.",
    },
    Family {
        name: "connections_opened",
        metric: "bundled_connections_total",
        label: "",
        kind: "counter",
        help: "Connections that were opened.",
    },
    Family {
        name: "bytes_read",
        metric: "bundled_read_bytes_total",
        label: "",
        kind: "counter",
        help: "Bytes that clients sent.",
    },
    Family {
        name: "bytes_written",
        metric: "bundled_written_bytes_total",
        label: "",
        kind: "counter",
        help: "Bytes that were sent to clients.",
    },
    Family {
        name: "asked_again",
        metric: "bundled_asked_again_total",
        label: "",
        kind: "counter",
        help: "How often an operation was asked again that others were in the way of.",
    },
    Family {
        name: "changes",
        metric: "bundled_changes_total",
        label: "",
        kind: "counter",
        help: "Changes of bundles.",
    },
    Family {
        name: "domains",
        metric: "bundled_domains",
        label: "",
        kind: "gauge",
        help: "Bundles that stand in the store.",
    },
    Family {
        name: "marks",
        metric: "bundled_marks",
        label: "",
        kind: "gauge",
        help: "Marks of removed bundles.",
    },
    Family {
        name: "requests_",
        metric: "bundled_requests_total",
        label: "request",
        kind: "counter",
        help: "Requests, by what they ask for.",
    },
    Family {
        name: "refused_",
        metric: "bundled_refused_total",
        label: "number",
        kind: "counter",
        help: "Replies that refuse or tell an error, by its number.",
    },
];

/// The counts of these words `name=value`, with single spaces between and a line feed behind, in the text format that
/// Prometheus reads, version 0.0.4: the families in a fixed order, each with its help and its type. Names of no family are
/// left out. Errors only if memory runs out.
pub fn exposition(alloc: Global, words: &[u8]) -> Result<String, AllocError> {
    let mut text = String::new(alloc);
    let Ok(words) = str::from_utf8(words) else {
        return Ok(text);
    };
    for family in &FAMILIES {
        family.put(words.trim_end(), &mut text)?;
    }
    Ok(text)
}

impl Family {
    /// Appends the samples of those words that are of the family, and what stands before them.
    fn put(&self, words: &str, text: &mut String) -> Result<(), AllocError> {
        let mut is_begun = false;
        for word in words.split(' ') {
            let Some((name, value)) = word.split_once('=') else {
                continue;
            };
            let Some(label) = self.label_of(name) else {
                continue;
            };
            if !is_begun {
                self.put_head(text)?;
                is_begun = true;
            }
            self.put_sample(label, value, text)?;
        }
        Ok(())
    }

    /// The value of the label for the count of this name, if that is of the family.
    fn label_of<'a>(&self, name: &'a str) -> Option<&'a str> {
        let rest = name.strip_prefix(self.name)?;
        if rest.is_empty() == self.label.is_empty() {
            Some(rest)
        } else {
            None
        }
    }

    fn put_head(&self, text: &mut String) -> Result<(), AllocError> {
        let (metric, help, kind) = (self.metric, self.help, self.kind);
        write!(text, "# HELP {metric} {help}\n# TYPE {metric} {kind}\n")
    }

    fn put_sample(&self, label: &str, value: &str, text: &mut String) -> Result<(), AllocError> {
        let (metric, name) = (self.metric, self.label);
        if name.is_empty() {
            write!(text, "{metric} {value}\n")
        } else {
            write!(text, "{metric}{{{name}=\"{label}\"}} {value}\n")
        }
    }
}
