// Texts that are no catalogs, each with its first fault.
use basics::Bytes;
use catalog::read_configured;
use outside::CatalogFault;
use std::alloc::Global;
use std::test::Fail;

// The fault of a text, `None` where it is a catalog.
fn fault_in(alloc: Global, text: &[u8]) -> Option<CatalogFault> {
    match read_configured(alloc, text) {
        Ok(_configured) => None,
        Err(fault) => Some(fault),
    }
}

#[test]
fn a_text_has_its_first_fault(rt: HostRuntime) -> Result<(), Fail> {
    for (text, want) in [
        ("", Some(CatalogFault::NotJson)),
        (r#"{"streams":{}}"#, Some(CatalogFault::NotJson)),
        (r#"{"streams":[]}"#, None),
        (
            r#"{"streams":[5]}"#,
            Some(CatalogFault::Missing { stream: 0 }),
        ),
        (
            r#"{"streams":[{"stream":{"name":"a"},"sync_mode":"x","destination_sync_mode":"append"}]}"#,
            Some(CatalogFault::BadMode { stream: 0 }),
        ),
        (
            r#"{"streams":[{"stream":{"name":"a"},"sync_mode":"full_refresh","destination_sync_mode":"append","generation_id":2,"minimum_generation_id":3}]}"#,
            Some(CatalogFault::MinimumAboveGeneration { stream: 0 }),
        ),
        (
            r#"{"streams":[{"stream":{"name":"a"},"sync_mode":"full_refresh","destination_sync_mode":"append","generation_id":4611686018427387905}]}"#,
            Some(CatalogFault::TooLarge { stream: 0 }),
        ),
        (
            r#"{"streams":[{"stream":{"name":"a"},"sync_mode":"full_refresh","destination_sync_mode":"append","generation_id":4611686018427387904}]}"#,
            None,
        ),
        (
            r#"{"streams":[{"stream":{"name":"a"},"sync_mode":"full_refresh","destination_sync_mode":"append","generation_id":9223372036854775808}]}"#,
            Some(CatalogFault::Missing { stream: 0 }),
        ),
        (
            r#"{"streams":[{"stream":{"name":"a"},"sync_mode":"full_refresh","destination_sync_mode":"append","generation_id":null}]}"#,
            None,
        ),
        (
            r#"{"streams":[{"stream":{"name":"a"},"sync_mode":"incremental","destination_sync_mode":"append_dedup","primary_key":[]}]}"#,
            Some(CatalogFault::NoKey { stream: 0 }),
        ),
        (
            r#"{"streams":[{"stream":{"name":"a"},"sync_mode":"incremental","destination_sync_mode":"append","primary_key":[[]]}]}"#,
            Some(CatalogFault::Missing { stream: 0 }),
        ),
        (
            r#"{"streams":[{"stream":{"name":"a"},"sync_mode":"incremental","destination_sync_mode":"append"},{"stream":{"name":"a","namespace":""},"sync_mode":"incremental","destination_sync_mode":"append"}]}"#,
            None,
        ),
        (
            r#"{"streams":[{"stream":{"name":"a"},"sync_mode":"incremental","destination_sync_mode":"append"},{"stream":{"n\u0061me":"\u0061","namespace":null},"sync_mode":"incremental","destination_sync_mode":"append"}]}"#,
            Some(CatalogFault::Twice { stream: 1 }),
        ),
        (
            r#"{"streams":[{"stream":{"name":"a"},"sync_mode":"incremental","destination_sync_mode":"append_dedup"},{"sync_mode":"incremental","destination_sync_mode":"append"}]}"#,
            Some(CatalogFault::NoKey { stream: 0 }),
        ),
        (
            r#"{"streams":[{"sync_mode":"incremental","destination_sync_mode":"append"},{"stream":{"name":"a"},"sync_mode":"incremental","destination_sync_mode":"append_dedup"}]}"#,
            Some(CatalogFault::Missing { stream: 0 }),
        ),
    ] {
        let fault = fault_in(rt.alloc(), text.as_bytes());
        assert_eq!(rt; fault, want, "of {text}");
    }
    Ok(())
}

#[test]
fn names_and_catalogs_have_limits(rt: HostRuntime) -> Result<(), Fail> {
    for (bytes, want) in [
        (65_536, None),
        (65_537, Some(CatalogFault::Missing { stream: 0 })),
    ] {
        let mut text = Bytes::new(rt.alloc());
        text.extend(
            br#"{"streams":[{"sync_mode":"incremental","destination_sync_mode":"append","stream":{"name":""#,
        )?;
        for _ in 0..bytes {
            text.push(b'a')?;
        }
        text.extend(br#""}}]}"#)?;
        let fault = fault_in(rt.alloc(), text.as_slice());
        assert_eq!(rt; fault, want, "of {bytes} bytes");
    }
    let mut text = Bytes::new(rt.alloc());
    text.extend(br#"{"streams":[5"#)?;
    for _ in 0..4_096 {
        text.extend(b",5")?;
    }
    text.extend(b"]}")?;
    let fault = fault_in(rt.alloc(), text.as_slice());
    assert_eq!(rt; fault, Some(CatalogFault::TooMany));
    Ok(())
}
