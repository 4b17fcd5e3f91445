//! What a key of a table takes.
ghost use Rattle.std.specs.Prelude.{◌≡◌};
ghost use Rattle.std.specs.List.{list_all};
ghost use Rattle.toml.specs.View.{view};
ghost use Rattle.cg_format.specs.Form.{is_text, are_texts};
ghost use Rattle.cg_text.specs.Keys.{admits};

use toml::Value;

/// What a key of a table takes.
#[derive(Clone, Copy, Debug, PartialEq, Eq)]
pub enum Takes {
    Integer,
    Text,
    /// An array of texts.
    Texts,
    Table,
    /// An array, of which each element has to be a table.
    Tables,
    /// An integer or a text.
    Value,
    /// An integer, a text or an array of texts.
    Lines,
}

impl Takes {
    /// Whether a value is of this type; of an array of tables whether it is an array.
    pub fn fits(self, value: &Value) -> bool
        ensures { result ≡ admits self (view value.now) }
    {
        match self {
            Takes::Integer => value.is_integer(),
            Takes::Text => value.is_str(),
            Takes::Texts => are_texts(value),
            Takes::Table => value.is_table(),
            Takes::Tables => value.is_array(),
            Takes::Value => value.is_integer() || value.is_str(),
            Takes::Lines => value.is_integer() || value.is_str() || are_texts(value),
        }
    }
}

fn are_all_texts(values: &[Value]) -> bool
    ensures { result ≡ list_all (λ value. is_text (view value)) values.now }
{
    values.iter().all(|value| value.is_str())
}

fn are_texts(value: &Value) -> bool
    ensures { result ≡ are_texts (view value.now) }
{
    match value {
        Value::Array(items) => are_all_texts(items),
        _ => false,
    }
}
