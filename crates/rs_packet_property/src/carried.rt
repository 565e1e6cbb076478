//! The properties that a message carries (3.3.2.3).

ghost use Rattle.std.specs.Prelude.{◌≡◌, IfOk};

use bytes::Bytes;
use rs_topic::Text;
use std::alloc::{AllocError, Global};
use std::marker::Model;
use std::sync::Arc;

/// The values of the properties that a message carries, one by one (3.3.2.3). The correlation data have at most as many bytes as
/// two bytes of length can say, and the user properties stand in the order received.
#[derive(Debug, Drop)]
pub struct PropertyFields {
    /// The Payload Format Indicator (3.3.2.3.2): 0 for bytes, 1 for UTF-8.
    pub format: Option<u8>,
    /// The Content Type (3.3.2.3.9).
    pub content_type: Option<Text>,
    /// The Response Topic (3.3.2.3.5).
    pub response_topic: Option<Text>,
    /// The Correlation Data (3.3.2.3.6).
    pub correlation: Option<Bytes>,
    /// The User Properties (3.3.2.3.7): names and values; a name may occur more than once.
    pub user: Vec<(Text, Text)>,
}

impl Model for PropertyFields {
    ghost use Rattle.rs_packet_property.specs.Values.{PropertiesValue};

    ghost Value = { PropertiesValue };

    ghost use Rattle.rs_packet_property.specs.Bounds.{CorrelationFits};

    ghost view = { λ p. record {
      format = p.format;
      content_type = p.content_type;
      response_topic = p.response_topic;
      correlation = p.correlation;
      user = p.user.items;
    } };

    ghost invariant = { λ p. CorrelationFits (record {
      format = p.format;
      content_type = p.content_type;
      response_topic = p.response_topic;
      correlation = p.correlation;
      user = p.user.items;
    }) };
}

impl PropertyFields {
    ghost use Rattle.rs_packet_property.specs.Values.{no_properties};
    ghost use Rattle.rs_packet_property.specs.Equality.{properties_eq};

    /// Whether none of them is there.
    fn are_none(&self) -> bool
        ensures { result ≡ properties_eq no_properties self.now }
    {
        self.format.is_none()
            && self.content_type.is_none()
            && self.response_topic.is_none()
            && self.correlation.is_none()
            && self.user.is_empty()
    }
}

impl PartialEq for PropertyFields {
    ghost use Rattle.std.specs.Cmp.{partial_equiv_from_equiv};
    ghost use Rattle.rs_packet_property.specs.Equality.{properties_eq, properties_eq_equiv};

    ghost eq = { properties_eq };

    ghost laws = { partial_equiv_from_equiv properties_eq_equiv };

    fn eq(&self, other: &PropertyFields) -> bool {
        self.format == other.format
            && self.content_type == other.content_type
            && self.response_topic == other.response_topic
            && self.correlation == other.correlation
            && self.user == other.user
    }
}

/// The properties that a message carries (3.3.2.3). Copies share their values. Without any property it takes no memory.
#[derive(Debug, Drop)]
pub struct Properties {
    fields: Option<Arc<PropertyFields>>,
}

impl Model for Properties {
    ghost use Rattle.rs_packet_property.specs.Values.{PropertiesValue};

    ghost Value = { PropertiesValue };

    ghost use Rattle.rs_packet_property.specs.Shared.{properties_of};

    ghost view = { λ p. properties_of p.fields };
}

impl Properties {
    ghost use Rattle.std.specs.Prelude.{IsOk, MatchOption};
    ghost use Rattle.rs_packet_property.specs.Values.{no_properties};

    /// Creates a value without any property.
    pub fn none() -> Properties
        ensures { result ≡ no_properties }
    {
        Properties { fields: None }
    }

    /// Creates a value with these properties. It takes no memory if there are none.
    pub fn new(alloc: Global, fields: PropertyFields) -> Result<Properties, AllocError>
        ensures ok { IfOk result (λ p. p ≡ fields) }
        ensures none { fields ≡ no_properties → IsOk result }
    {
        if fields.are_none() {
            return Ok(Properties::none());
        }
        Ok(Properties {
            fields: Some(Arc::new(alloc, fields)?),
        })
    }

    /// The fields; None if no property was given.
    pub fn fields(&self) -> Option<&PropertyFields>
        ensures { MatchOption result (self.now ≡ no_properties) (λ fields. fields.now ≡ self.now) }
    {
        match &self.fields {
            Some(fields) => Some(&**fields),
            None => None,
        }
    }

    /// An equal value, which shares the values. The error says that the count of their owners is full.
    pub fn copy(&self) -> Result<Properties, AllocError>
        ensures { IfOk result (λ p. p ≡ self.now) }
    {
        match &self.fields {
            Some(fields) => Ok(Properties {
                fields: Some(fields.clone()?),
            }),
            None => Ok(Properties::none()),
        }
    }
}

impl PartialEq for Properties {
    ghost use Rattle.std.specs.Cmp.{partial_equiv_from_equiv};
    ghost use Rattle.rs_packet_property.specs.Equality.{properties_eq, properties_eq_equiv};

    ghost eq = { properties_eq };

    ghost laws = { partial_equiv_from_equiv properties_eq_equiv };

    fn eq(&self, other: &Properties) -> bool {
        match (self.fields(), other.fields()) {
            (Some(fields), Some(others)) => *fields == *others,
            (Some(fields), None) => fields.are_none(),
            (None, Some(others)) => others.are_none(),
            (None, None) => true,
        }
    }
}

impl Eq for Properties {
    ghost use Rattle.rs_packet_property.specs.Equality.{properties_eq_equiv};

    ghost laws = { properties_eq_equiv };
}
