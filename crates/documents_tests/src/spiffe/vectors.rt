//! Real bundles, with certificates and keys, and small ones, and their canonical texts as another program made them.
use super::{bundle, is_equal_at};
use spiffe_doc::{Bundle, DocError, read_document, write_document, write_entry};
use std::alloc::{AllocError, Global};
use std::process::Abort;

/// A domain that has withdrawn what it published.
const WITHDRAWN: &str = "{\"spiffe_sequence\": 12, \"keys\": []}";

const WITHDRAWN_TEXT: &str = "{\"keys\":[],\"spiffe_sequence\":12}";

/// What a server publishes by default: an authority of each kind over P-256.
const DEFAULT: &str =
    "{\n    \"keys\": [\n        {\n            \"use\": \"x509-svid\",\n            \"kty\": \"EC\",\n            \"crv\": \"P-256\",\n            \"x\": \"-G7fp-jzNHw1rvG4LS_yqvAOMknL822He5jxSNvvTBM\",\n            \"y\": \"IZ-pqtQPNwT-ATj5DnXY1n97YBJfljCTbwabVztyAbQ\",\n            \"x5c\": [\n                \"MIIBZjCCAQugAwIBAgIJAJG3WEoiZbH1MAoGCCqGSM49BAMCMB0xDjAMBgNVBAoMBVNQSVJFMQswCQYDVQQGEwJVUzAeFw0yNjAxMDEwMDAwMDBaFw0yNzAxMDEwMDAwMDBaMB0xDjAMBgNVBAoMBVNQSVJFMQswCQYDVQQGEwJVUzBZMBMGByqGSM49AgEGCCqGSM49AwEHA0IABPhu36fo8zR8Na7xuC0v8qrwDjJJy/Nth3uY8Ujb70wTIZ+pqtQPNwT+ATj5DnXY1n97YBJfljCTbwabVztyAbSjNDAyMA8GA1UdEwEB/wQFMAMBAf8wHwYDVR0RBBgwFoYUc3BpZmZlOi8vZXhhbXBsZS5vcmcwCgYIKoZIzj0EAwIDSQAwRgIhAOCQ9elfPJjrYR6wqnuDbcbLqE2/OEQ95er2HTp4cT0FAiEAy9fn5GWXXnuYP+c+/nwylq53vvHqjd/ZOO6BEhrbPRw=\"\n            ]\n        },\n        {\n            \"use\": \"jwt-svid\",\n            \"kty\": \"EC\",\n            \"crv\": \"P-256\",\n            \"x\": \"UTfGp93aN36aNN-PUhyJb6ah3wKm6QpswBpeQpXMLFY\",\n            \"y\": \"DfVcPQON1Cuf8YEd4vrVy4GIhcbDJzkPXlaBuGU-0S4\",\n            \"kid\": \"32rx2DA-Yc3Eu4bD0cQnEDw0TEGJ6y8e\"\n        }\n    ],\n    \"spiffe_sequence\": 1,\n    \"spiffe_refresh_hint\": 2419200\n}";

const DEFAULT_TEXT: &str =
    "{\"keys\":[{\"crv\":\"P-256\",\"kty\":\"EC\",\"use\":\"x509-svid\",\"x\":\"-G7fp-jzNHw1rvG4LS_yqvAOMknL822He5jxSNvvTBM\",\"x5c\":[\"MIIBZjCCAQugAwIBAgIJAJG3WEoiZbH1MAoGCCqGSM49BAMCMB0xDjAMBgNVBAoMBVNQSVJFMQswCQYDVQQGEwJVUzAeFw0yNjAxMDEwMDAwMDBaFw0yNzAxMDEwMDAwMDBaMB0xDjAMBgNVBAoMBVNQSVJFMQswCQYDVQQGEwJVUzBZMBMGByqGSM49AgEGCCqGSM49AwEHA0IABPhu36fo8zR8Na7xuC0v8qrwDjJJy/Nth3uY8Ujb70wTIZ+pqtQPNwT+ATj5DnXY1n97YBJfljCTbwabVztyAbSjNDAyMA8GA1UdEwEB/wQFMAMBAf8wHwYDVR0RBBgwFoYUc3BpZmZlOi8vZXhhbXBsZS5vcmcwCgYIKoZIzj0EAwIDSQAwRgIhAOCQ9elfPJjrYR6wqnuDbcbLqE2/OEQ95er2HTp4cT0FAiEAy9fn5GWXXnuYP+c+/nwylq53vvHqjd/ZOO6BEhrbPRw=\"],\"y\":\"IZ-pqtQPNwT-ATj5DnXY1n97YBJfljCTbwabVztyAbQ\"},{\"crv\":\"P-256\",\"kid\":\"32rx2DA-Yc3Eu4bD0cQnEDw0TEGJ6y8e\",\"kty\":\"EC\",\"use\":\"jwt-svid\",\"x\":\"UTfGp93aN36aNN-PUhyJb6ah3wKm6QpswBpeQpXMLFY\",\"y\":\"DfVcPQON1Cuf8YEd4vrVy4GIhcbDJzkPXlaBuGU-0S4\"}],\"spiffe_refresh_hint\":2419200,\"spiffe_sequence\":1}";

/// Keys of other types and uses beside known ones.
const MIXED: &str =
    "{\n    \"spiffe_sequence\": 3,\n    \"keys\": [\n        {\n            \"use\": \"x509-svid\",\n            \"kty\": \"EC\",\n            \"crv\": \"P-256\",\n            \"x\": \"aKfVOnPDRXIttw9OAlUbg5jye2oLIK3SoVAuZslr7M0\",\n            \"y\": \"BGMSwFpXxew36vgLEdonLaNGO_opUWyjlHmgUUVhcRk\",\n            \"x5c\": [\n                \"MIIBZzCCAQ2gAwIBAgIJAPBtP+9wGWagMAoGCCqGSM49BAMCMB0xDjAMBgNVBAoMBVNQSVJFMQswCQYDVQQGEwJVUzAeFw0yNjAxMDEwMDAwMDBaFw0yNzAxMDEwMDAwMDBaMB0xDjAMBgNVBAoMBVNQSVJFMQswCQYDVQQGEwJVUzBZMBMGByqGSM49AgEGCCqGSM49AwEHA0IABGin1Tpzw0VyLbcPTgJVG4OY8ntqCyCt0qFQLmbJa+zNBGMSwFpXxew36vgLEdonLaNGO/opUWyjlHmgUUVhcRmjNjA0MA8GA1UdEwEB/wQFMAMBAf8wIQYDVR0RBBowGIYWc3BpZmZlOi8vbWl4ZWQuZXhhbXBsZTAKBggqhkjOPQQDAgNIADBFAiAe6MAO+T1N14U52+VTGIiGrTfS0hO69gUw91xC97Uy2wIhAOWs0uyniYouIO3VBIAuvdxdq7DLf5iB5WFRiwZ0cGnU\"\n            ]\n        },\n        {\n            \"use\": \"jwt-svid\",\n            \"kty\": \"OKP\",\n            \"crv\": \"Ed25519\",\n            \"x\": \"vbEk6VffHAXpYn4PcDHCU3wYaZhpnlzIwRRuhxMFxHU\",\n            \"kid\": \"FI3tfoo0iI05bKs7gNJ_WN8RGjs98kWt\",\n            \"alg\": \"EdDSA\"\n        },\n        {\n            \"use\": \"jwt-svid\",\n            \"kty\": \"EC\",\n            \"crv\": \"P-256\",\n            \"x\": \"K__4rg9Oo7oSyP-WLbHezM334InlW0VBWw0ZrKV4ScM\",\n            \"y\": \"fS3oOG6RcLCnUE1ElPpbEYXtlYVR_L1IvM1mNHB_Gy0\",\n            \"kid\": \"qQgCOJp4zcKUkqh190rG86ogL0rZiS_t\"\n        },\n        {\n            \"use\": \"sig\",\n            \"kty\": \"EC\",\n            \"crv\": \"P-256\",\n            \"x\": \"XVEI_731Ry_0K6Ho9bflOyEILAIO18Q1ZE_9uJ25x00\",\n            \"y\": \"JxoCciaZzL3TKlDk8ygxg9atmvmWYsXEauzt8Ll1jFs\",\n            \"kid\": \"dVmABbrEimqegmvW8KiQ6kfKc460jBTs\",\n            \"alg\": \"ES256\"\n        }\n    ]\n}";

const MIXED_TEXT: &str =
    "{\"keys\":[{\"crv\":\"P-256\",\"kty\":\"EC\",\"use\":\"x509-svid\",\"x\":\"aKfVOnPDRXIttw9OAlUbg5jye2oLIK3SoVAuZslr7M0\",\"x5c\":[\"MIIBZzCCAQ2gAwIBAgIJAPBtP+9wGWagMAoGCCqGSM49BAMCMB0xDjAMBgNVBAoMBVNQSVJFMQswCQYDVQQGEwJVUzAeFw0yNjAxMDEwMDAwMDBaFw0yNzAxMDEwMDAwMDBaMB0xDjAMBgNVBAoMBVNQSVJFMQswCQYDVQQGEwJVUzBZMBMGByqGSM49AgEGCCqGSM49AwEHA0IABGin1Tpzw0VyLbcPTgJVG4OY8ntqCyCt0qFQLmbJa+zNBGMSwFpXxew36vgLEdonLaNGO/opUWyjlHmgUUVhcRmjNjA0MA8GA1UdEwEB/wQFMAMBAf8wIQYDVR0RBBowGIYWc3BpZmZlOi8vbWl4ZWQuZXhhbXBsZTAKBggqhkjOPQQDAgNIADBFAiAe6MAO+T1N14U52+VTGIiGrTfS0hO69gUw91xC97Uy2wIhAOWs0uyniYouIO3VBIAuvdxdq7DLf5iB5WFRiwZ0cGnU\"],\"y\":\"BGMSwFpXxew36vgLEdonLaNGO_opUWyjlHmgUUVhcRk\"},{\"crv\":\"P-256\",\"kid\":\"qQgCOJp4zcKUkqh190rG86ogL0rZiS_t\",\"kty\":\"EC\",\"use\":\"jwt-svid\",\"x\":\"K__4rg9Oo7oSyP-WLbHezM334InlW0VBWw0ZrKV4ScM\",\"y\":\"fS3oOG6RcLCnUE1ElPpbEYXtlYVR_L1IvM1mNHB_Gy0\"}],\"spiffe_sequence\":3}";

/// Two authorities of each kind, amid a rotation.
const ROTATION: &str =
    "{\"keys\": [{\"use\": \"x509-svid\", \"kty\": \"EC\", \"crv\": \"P-384\", \"x\": \"ZE2OmqkIfoY0-40qXCGbdQa7XmwkYYhlKWzsPFl0c2TCETTsuVD4F6VTzqmPaInZ\", \"y\": \"zTp6wNgedLJLQLSWl8Sc3smMBiQ8subdZ6-d0hY-eJq6z8VnsAA6GCOsdDUMZlaL\", \"x5c\": [\"MIIBpjCCASygAwIBAgIIYS52lqbOzBswCgYIKoZIzj0EAwIwHTEOMAwGA1UECgwFU1BJUkUxCzAJBgNVBAYTAlVTMB4XDTI2MDEwMTAwMDAwMFoXDTI3MDEwMTAwMDAwMFowHTEOMAwGA1UECgwFU1BJUkUxCzAJBgNVBAYTAlVTMHYwEAYHKoZIzj0CAQYFK4EEACIDYgAEZE2OmqkIfoY0+40qXCGbdQa7XmwkYYhlKWzsPFl0c2TCETTsuVD4F6VTzqmPaInZzTp6wNgedLJLQLSWl8Sc3smMBiQ8subdZ6+d0hY+eJq6z8VnsAA6GCOsdDUMZlaLozkwNzAPBgNVHRMBAf8EBTADAQH/MCQGA1UdEQQdMBuGGXNwaWZmZTovL3Byb2QuZXhhbXBsZS5vcmcwCgYIKoZIzj0EAwIDaAAwZQIxAN9p09JWVml91e9wKs1lqnXIER48Wux+0bMKbaqReTRuEyECMEzRnlutT4cWNDF63QIwT6CF7m7mId65g5jhDM10O9uiMOL2z2wAaX8RbXEI0n4iCjpsWItZ/aSOzI59vMrS\"]}, {\"use\": \"x509-svid\", \"kty\": \"EC\", \"crv\": \"P-384\", \"x\": \"k2g_c9GLI8FZ0Tk7vSwsooNshZrX9Lf1zKOPPaKGAAvREU8uJ14ijDDrOLDdOoaH\", \"y\": \"cCZIaFmKqS8JhLJPa0FhkFZsqaQbIkAJayFOMtg14tLGJSDoSeir88WLzYywItaw\", \"x5c\": [\"MIIBpjCCASygAwIBAgIINb+ZLcnpxhYwCgYIKoZIzj0EAwIwHTEOMAwGA1UECgwFU1BJUkUxCzAJBgNVBAYTAlVTMB4XDTI2MDEwMTAwMDAwMFoXDTI3MDEwMTAwMDAwMFowHTEOMAwGA1UECgwFU1BJUkUxCzAJBgNVBAYTAlVTMHYwEAYHKoZIzj0CAQYFK4EEACIDYgAEk2g/c9GLI8FZ0Tk7vSwsooNshZrX9Lf1zKOPPaKGAAvREU8uJ14ijDDrOLDdOoaHcCZIaFmKqS8JhLJPa0FhkFZsqaQbIkAJayFOMtg14tLGJSDoSeir88WLzYywItawozkwNzAPBgNVHRMBAf8EBTADAQH/MCQGA1UdEQQdMBuGGXNwaWZmZTovL3Byb2QuZXhhbXBsZS5vcmcwCgYIKoZIzj0EAwIDaAAwZQIxALL7q2q4YaRXSXa4fDw3TOO2SYsil5mjaVfakoB8usIWkgsbYVW8+UEozKflGT+keQIwYCu+t6pRJYf+hO48zEfudm5fL8o813OrscdbsoaWWwjguGTULtBoQsRv+i0NF9zD\"]}, {\"use\": \"jwt-svid\", \"kty\": \"RSA\", \"n\": \"sKZT6Iy-2vhTMvXnwFtvwS6WYb-zwQpNhapPxd3hBHOD_4eDKou1VKOYtN6RSKQUpzVbqj6LLfgFdEpcFqVvrpCeGA3xRdog-rBG4BhRyGhilnh2BUFhSkvEOIdzB_c0vw5dy0cyiD2nTdt4DH9F4tmhTMi7BAr1eFjNUHiNULZIdtmfLMmTXfBEsPdFV4SUBCJZ673DEXD6V7XQrfpk3OSbcp0esOUV-chvs3oCDlF4oQ7DLpVZ3v75prrBd5yeo1DhF48Zh2z9r-ZKk7PBMSIg2HIyFyGOrJdZ_oCGIrNX5CHLYDHSN51hWnqsqbTB2RWefEAgl_Qvv0K-fzv5Mw\", \"e\": \"AQAB\", \"kid\": \"jC4HGIIs5Hyox0EH5myw5LKz9NWNgspj\"}, {\"use\": \"jwt-svid\", \"kty\": \"RSA\", \"n\": \"u_WlQhVl43x_pVblL-th0FAxvQyXY8Nm5XZI0hEzcXic1W9XIoz_whM5nBZ7T73Am0VhvtEd6DlpQ3NwZdxICfbvC4QsD2d_SaAEhfddwPl_H-7S-8m-wstsYwLmJNZqvkqOIE8GdQicsb6QRF37J0wcC34rE3eAhfLDyvotzQQ1abjKewLqOvApPnynDep0R1309duo3i8iG3ReNE_CgiwyIIO6ASgjjSHy8KE8lGnrV6QLEwjXaXx9ECsEQsVrKo2s-aap6qACuUA4lMWDhcNdOlodRuJjRDT3b5DJJDokBGXNgwGClEeo1eo4CmxSvqP3IZnWu_GKlIQ7S91New\", \"e\": \"AQAB\", \"kid\": \"htLJbnYOgZuFySTDWXFkxKYFigBYGiKy\"}], \"spiffe_sequence\": 7, \"spiffe_refresh_hint\": 300}";

const ROTATION_TEXT: &str =
    "{\"keys\":[{\"crv\":\"P-384\",\"kty\":\"EC\",\"use\":\"x509-svid\",\"x\":\"ZE2OmqkIfoY0-40qXCGbdQa7XmwkYYhlKWzsPFl0c2TCETTsuVD4F6VTzqmPaInZ\",\"x5c\":[\"MIIBpjCCASygAwIBAgIIYS52lqbOzBswCgYIKoZIzj0EAwIwHTEOMAwGA1UECgwFU1BJUkUxCzAJBgNVBAYTAlVTMB4XDTI2MDEwMTAwMDAwMFoXDTI3MDEwMTAwMDAwMFowHTEOMAwGA1UECgwFU1BJUkUxCzAJBgNVBAYTAlVTMHYwEAYHKoZIzj0CAQYFK4EEACIDYgAEZE2OmqkIfoY0+40qXCGbdQa7XmwkYYhlKWzsPFl0c2TCETTsuVD4F6VTzqmPaInZzTp6wNgedLJLQLSWl8Sc3smMBiQ8subdZ6+d0hY+eJq6z8VnsAA6GCOsdDUMZlaLozkwNzAPBgNVHRMBAf8EBTADAQH/MCQGA1UdEQQdMBuGGXNwaWZmZTovL3Byb2QuZXhhbXBsZS5vcmcwCgYIKoZIzj0EAwIDaAAwZQIxAN9p09JWVml91e9wKs1lqnXIER48Wux+0bMKbaqReTRuEyECMEzRnlutT4cWNDF63QIwT6CF7m7mId65g5jhDM10O9uiMOL2z2wAaX8RbXEI0n4iCjpsWItZ/aSOzI59vMrS\"],\"y\":\"zTp6wNgedLJLQLSWl8Sc3smMBiQ8subdZ6-d0hY-eJq6z8VnsAA6GCOsdDUMZlaL\"},{\"crv\":\"P-384\",\"kty\":\"EC\",\"use\":\"x509-svid\",\"x\":\"k2g_c9GLI8FZ0Tk7vSwsooNshZrX9Lf1zKOPPaKGAAvREU8uJ14ijDDrOLDdOoaH\",\"x5c\":[\"MIIBpjCCASygAwIBAgIINb+ZLcnpxhYwCgYIKoZIzj0EAwIwHTEOMAwGA1UECgwFU1BJUkUxCzAJBgNVBAYTAlVTMB4XDTI2MDEwMTAwMDAwMFoXDTI3MDEwMTAwMDAwMFowHTEOMAwGA1UECgwFU1BJUkUxCzAJBgNVBAYTAlVTMHYwEAYHKoZIzj0CAQYFK4EEACIDYgAEk2g/c9GLI8FZ0Tk7vSwsooNshZrX9Lf1zKOPPaKGAAvREU8uJ14ijDDrOLDdOoaHcCZIaFmKqS8JhLJPa0FhkFZsqaQbIkAJayFOMtg14tLGJSDoSeir88WLzYywItawozkwNzAPBgNVHRMBAf8EBTADAQH/MCQGA1UdEQQdMBuGGXNwaWZmZTovL3Byb2QuZXhhbXBsZS5vcmcwCgYIKoZIzj0EAwIDaAAwZQIxALL7q2q4YaRXSXa4fDw3TOO2SYsil5mjaVfakoB8usIWkgsbYVW8+UEozKflGT+keQIwYCu+t6pRJYf+hO48zEfudm5fL8o813OrscdbsoaWWwjguGTULtBoQsRv+i0NF9zD\"],\"y\":\"cCZIaFmKqS8JhLJPa0FhkFZsqaQbIkAJayFOMtg14tLGJSDoSeir88WLzYywItaw\"},{\"e\":\"AQAB\",\"kid\":\"jC4HGIIs5Hyox0EH5myw5LKz9NWNgspj\",\"kty\":\"RSA\",\"n\":\"sKZT6Iy-2vhTMvXnwFtvwS6WYb-zwQpNhapPxd3hBHOD_4eDKou1VKOYtN6RSKQUpzVbqj6LLfgFdEpcFqVvrpCeGA3xRdog-rBG4BhRyGhilnh2BUFhSkvEOIdzB_c0vw5dy0cyiD2nTdt4DH9F4tmhTMi7BAr1eFjNUHiNULZIdtmfLMmTXfBEsPdFV4SUBCJZ673DEXD6V7XQrfpk3OSbcp0esOUV-chvs3oCDlF4oQ7DLpVZ3v75prrBd5yeo1DhF48Zh2z9r-ZKk7PBMSIg2HIyFyGOrJdZ_oCGIrNX5CHLYDHSN51hWnqsqbTB2RWefEAgl_Qvv0K-fzv5Mw\",\"use\":\"jwt-svid\"},{\"e\":\"AQAB\",\"kid\":\"htLJbnYOgZuFySTDWXFkxKYFigBYGiKy\",\"kty\":\"RSA\",\"n\":\"u_WlQhVl43x_pVblL-th0FAxvQyXY8Nm5XZI0hEzcXic1W9XIoz_whM5nBZ7T73Am0VhvtEd6DlpQ3NwZdxICfbvC4QsD2d_SaAEhfddwPl_H-7S-8m-wstsYwLmJNZqvkqOIE8GdQicsb6QRF37J0wcC34rE3eAhfLDyvotzQQ1abjKewLqOvApPnynDep0R1309duo3i8iG3ReNE_CgiwyIIO6ASgjjSHy8KE8lGnrV6QLEwjXaXx9ECsEQsVrKo2s-aap6qACuUA4lMWDhcNdOlodRuJjRDT3b5DJJDokBGXNgwGClEeo1eo4CmxSvqP3IZnWu_GKlIQ7S91New\",\"use\":\"jwt-svid\"}],\"spiffe_refresh_hint\":300,\"spiffe_sequence\":7}";

/// An authority over P-521.
const LARGE_CURVE: &str =
    "{\n    \"keys\": [\n        {\n            \"use\": \"x509-svid\",\n            \"kty\": \"EC\",\n            \"crv\": \"P-521\",\n            \"x\": \"AFxrgwFU0W1cXRyiDD-YS65G3-I-u-FmnoiSX_OruP0bxWA5zRfjUsNIOFjecLgJC7kVnxI8GbEbT6XYBFLxfJqW\",\n            \"y\": \"AAFGxd5s39XCjPIkFXbNHJksUoEkIAG6c97Se9uXNwZUiQbooKkEaeoyzlgqGDnFHzUWAheLzprSnRPs81JfXtoi\",\n            \"x5c\": [\n                \"MIIB6TCCAUugAwIBAgIJAOGYitnwbBRKMAoGCCqGSM49BAMCMB0xDjAMBgNVBAoMBVNQSVJFMQswCQYDVQQGEwJVUzAeFw0yNjAxMDEwMDAwMDBaFw0yNzAxMDEwMDAwMDBaMB0xDjAMBgNVBAoMBVNQSVJFMQswCQYDVQQGEwJVUzCBmzAQBgcqhkjOPQIBBgUrgQQAIwOBhgAEAFxrgwFU0W1cXRyiDD+YS65G3+I+u+FmnoiSX/OruP0bxWA5zRfjUsNIOFjecLgJC7kVnxI8GbEbT6XYBFLxfJqWAAFGxd5s39XCjPIkFXbNHJksUoEkIAG6c97Se9uXNwZUiQbooKkEaeoyzlgqGDnFHzUWAheLzprSnRPs81JfXtoiozEwLzAPBgNVHRMBAf8EBTADAQH/MBwGA1UdEQQVMBOGEXNwaWZmZTovL3RkXzUuMi0xMAoGCCqGSM49BAMCA4GLADCBhwJCAJ8QHYhYzRRrXJU4d1oIu61cOSYNPbZq5X+w77it5cFop1q1IXulSQqL9niL1az40Nw34MhTsJ1U/1W73rEXO7s0AkEu2Qp1L8RPAondDSGmHzb/BW3iEA9IecHDvS13ehnEhdlYIYSRdRu4ef2c6O/V72ciEEpZD33GHyYOzQ2wzE/5GA==\"\n            ]\n        },\n        {\n            \"use\": \"jwt-svid\",\n            \"kty\": \"EC\",\n            \"crv\": \"P-521\",\n            \"x\": \"APH13y7r79kDrpYwTHS7Gfj7uHT7x6dGdtGFsaefqddqaDM6agLSn4wUUH9oPYuSZ8kBYvcGmn1nX-dAoi90lB89\",\n            \"y\": \"AayNnmYqWBibgqlLcRnfgeV6xdndgKnI9yFlC5ZA3-0h4zdR5mi7JwYdzZiMsCzmVUDo5HENMEklRYDcNdPXHVmv\",\n            \"kid\": \"z5mWYflnva_fDnM3QgwT-PXUD2zgedG5\"\n        }\n    ],\n    \"spiffe_sequence\": 18446744073709551615\n}";

const LARGE_CURVE_TEXT: &str =
    "{\"keys\":[{\"crv\":\"P-521\",\"kty\":\"EC\",\"use\":\"x509-svid\",\"x\":\"AFxrgwFU0W1cXRyiDD-YS65G3-I-u-FmnoiSX_OruP0bxWA5zRfjUsNIOFjecLgJC7kVnxI8GbEbT6XYBFLxfJqW\",\"x5c\":[\"MIIB6TCCAUugAwIBAgIJAOGYitnwbBRKMAoGCCqGSM49BAMCMB0xDjAMBgNVBAoMBVNQSVJFMQswCQYDVQQGEwJVUzAeFw0yNjAxMDEwMDAwMDBaFw0yNzAxMDEwMDAwMDBaMB0xDjAMBgNVBAoMBVNQSVJFMQswCQYDVQQGEwJVUzCBmzAQBgcqhkjOPQIBBgUrgQQAIwOBhgAEAFxrgwFU0W1cXRyiDD+YS65G3+I+u+FmnoiSX/OruP0bxWA5zRfjUsNIOFjecLgJC7kVnxI8GbEbT6XYBFLxfJqWAAFGxd5s39XCjPIkFXbNHJksUoEkIAG6c97Se9uXNwZUiQbooKkEaeoyzlgqGDnFHzUWAheLzprSnRPs81JfXtoiozEwLzAPBgNVHRMBAf8EBTADAQH/MBwGA1UdEQQVMBOGEXNwaWZmZTovL3RkXzUuMi0xMAoGCCqGSM49BAMCA4GLADCBhwJCAJ8QHYhYzRRrXJU4d1oIu61cOSYNPbZq5X+w77it5cFop1q1IXulSQqL9niL1az40Nw34MhTsJ1U/1W73rEXO7s0AkEu2Qp1L8RPAondDSGmHzb/BW3iEA9IecHDvS13ehnEhdlYIYSRdRu4ef2c6O/V72ciEEpZD33GHyYOzQ2wzE/5GA==\"],\"y\":\"AAFGxd5s39XCjPIkFXbNHJksUoEkIAG6c97Se9uXNwZUiQbooKkEaeoyzlgqGDnFHzUWAheLzprSnRPs81JfXtoi\"},{\"crv\":\"P-521\",\"kid\":\"z5mWYflnva_fDnM3QgwT-PXUD2zgedG5\",\"kty\":\"EC\",\"use\":\"jwt-svid\",\"x\":\"APH13y7r79kDrpYwTHS7Gfj7uHT7x6dGdtGFsaefqddqaDM6agLSn4wUUH9oPYuSZ8kBYvcGmn1nX-dAoi90lB89\",\"y\":\"AayNnmYqWBibgqlLcRnfgeV6xdndgKnI9yFlC5ZA3-0h4zdR5mi7JwYdzZiMsCzmVUDo5HENMEklRYDcNdPXHVmv\"}],\"spiffe_sequence\":18446744073709551615}";

/// A document, its canonical text, its sequence, its refresh hint, and how many authorities it has.
type Row<'a> = (&'a str, &'a str, Option<u64>, Option<u64>, usize);

static BUNDLES: [Row<'static>; 18] = [
    (WITHDRAWN, WITHDRAWN_TEXT, Some(12), None, 0),
    (DEFAULT, DEFAULT_TEXT, Some(1), Some(2419200), 2),
    (MIXED, MIXED_TEXT, Some(3), None, 2),
    (ROTATION, ROTATION_TEXT, Some(7), Some(300), 4),
    (
        LARGE_CURVE,
        LARGE_CURVE_TEXT,
        Some(18446744073709551615),
        None,
        2,
    ),
    ("{\"keys\":[]}", "{\"keys\":[]}", None, None, 0),
    (
        " {\"z\":{}, \"keys\" : [ ]\n}",
        "{\"keys\":[]}",
        None,
        None,
        0,
    ),
    (
        "{\"keys\":[],\"spiffe_sequence\":null}",
        "{\"keys\":[]}",
        None,
        None,
        0,
    ),
    (
        "{\"keys\":[],\"spiffe_sequence\":null,\"spiffe_refresh_hint\":null}",
        "{\"keys\":[]}",
        None,
        None,
        0,
    ),
    (
        "{\"keys\":[],\"spiffe_sequence\":18446744073709551615}",
        "{\"keys\":[],\"spiffe_sequence\":18446744073709551615}",
        Some(18446744073709551615),
        None,
        0,
    ),
    (
        "{\"spiffe_refresh_hint\":0,\"keys\":[],\"spiffe_sequence\":7}",
        "{\"keys\":[],\"spiffe_refresh_hint\":0,\"spiffe_sequence\":7}",
        Some(7),
        Some(0),
        0,
    ),
    (
        "{\"keys\":[{\"use\":\"x509-svid\",\"kty\":\"RSA\",\"n\":\"AQAB\",\"e\":\"AQAB\",\"x5c\":[\"MAA=\"]}],\"spiffe_sequence\":1,\"spiffe_refresh_hint\":60}",
        "{\"keys\":[{\"e\":\"AQAB\",\"kty\":\"RSA\",\"n\":\"AQAB\",\"use\":\"x509-svid\",\"x5c\":[\"MAA=\"]}],\"spiffe_refresh_hint\":60,\"spiffe_sequence\":1}",
        Some(1),
        Some(60),
        1,
    ),
    (
        "{\"keys\":[{\"use\":\"jwt-svid\",\"kty\":\"RSA\",\"n\":\"AQAB\",\"e\":\"AQAB\",\"kid\":\"k\",\"alg\":\"RS256\"}]}",
        "{\"keys\":[{\"e\":\"AQAB\",\"kid\":\"k\",\"kty\":\"RSA\",\"n\":\"AQAB\",\"use\":\"jwt-svid\"}]}",
        None,
        None,
        1,
    ),
    (
        "{\"keys\":[{\"use\":\"x509-svid\",\"kty\":\"EC\",\"crv\":\"P-256\",\"x\":\"AAAAAAAAAAAAAAAAAAAAAAAAAAAAAAAAAAAAAAAAAAA\",\"y\":\"AAAAAAAAAAAAAAAAAAAAAAAAAAAAAAAAAAAAAAAAAAA\",\"x5c\":[\"MAA=\"]}]}",
        "{\"keys\":[{\"crv\":\"P-256\",\"kty\":\"EC\",\"use\":\"x509-svid\",\"x\":\"AAAAAAAAAAAAAAAAAAAAAAAAAAAAAAAAAAAAAAAAAAA\",\"x5c\":[\"MAA=\"],\"y\":\"AAAAAAAAAAAAAAAAAAAAAAAAAAAAAAAAAAAAAAAAAAA\"}]}",
        None,
        None,
        1,
    ),
    // A text may be written with escapes, which its canonical text does not have.
    (
        "{\"keys\":[{\"use\":\"jwt-svid\",\"kty\":\"EC\",\"crv\":\"P-256\",\"kid\":\"k\\u00e9\",\"x\":\"AAAAAAAAAAAAAAAAAAAAAAAAAAAAAAAAAAAAAAAAAAA\",\"y\":\"AAAAAAAAAAAAAAAAAAAAAAAAAAAAAAAAAAAAAAAAAAA\"}]}",
        "{\"keys\":[{\"crv\":\"P-256\",\"kid\":\"k\u{e9}\",\"kty\":\"EC\",\"use\":\"jwt-svid\",\"x\":\"AAAAAAAAAAAAAAAAAAAAAAAAAAAAAAAAAAAAAAAAAAA\",\"y\":\"AAAAAAAAAAAAAAAAAAAAAAAAAAAAAAAAAAAAAAAAAAA\"}]}",
        None,
        None,
        1,
    ),
    (
        "{\"keys\":[{\"use\":\"jwt-\\u0073vid\",\"kty\":\"RSA\",\"n\":\"AQA\\u0042\",\"e\":\"AQAB\",\"k\\u0069d\":\"a\\/b\"}]}",
        "{\"keys\":[{\"e\":\"AQAB\",\"kid\":\"a/b\",\"kty\":\"RSA\",\"n\":\"AQAB\",\"use\":\"jwt-svid\"}]}",
        None,
        None,
        1,
    ),
    (
        "{\"keys\":[{\"use\":\"x509-svid\",\"kty\":\"RS\\u0041\",\"n\":\"\\u0041QAB\",\"e\":\"AQAB\",\"x5c\":[\"MD\\/\\/\"]}]}",
        "{\"keys\":[{\"e\":\"AQAB\",\"kty\":\"RSA\",\"n\":\"AQAB\",\"use\":\"x509-svid\",\"x5c\":[\"MD//\"]}]}",
        None,
        None,
        1,
    ),
    // Equal authorities stand once.
    (
        "{\"keys\":[{\"use\":\"jwt-svid\",\"kty\":\"EC\",\"crv\":\"P-256\",\"kid\":\"k\",\"x\":\"AAAAAAAAAAAAAAAAAAAAAAAAAAAAAAAAAAAAAAAAAAA\",\"y\":\"AAAAAAAAAAAAAAAAAAAAAAAAAAAAAAAAAAAAAAAAAAA\"},{\"use\":\"jwt-svid\",\"kty\":\"EC\",\"crv\":\"P-256\",\"kid\":\"l\",\"x\":\"AAAAAAAAAAAAAAAAAAAAAAAAAAAAAAAAAAAAAAAAAAA\",\"y\":\"AAAAAAAAAAAAAAAAAAAAAAAAAAAAAAAAAAAAAAAAAAA\"},{\"use\":\"jwt-svid\",\"kty\":\"EC\",\"crv\":\"P-256\",\"kid\":\"k\",\"x\":\"AAAAAAAAAAAAAAAAAAAAAAAAAAAAAAAAAAAAAAAAAAA\",\"y\":\"AAAAAAAAAAAAAAAAAAAAAAAAAAAAAAAAAAAAAAAAAAA\"}]}",
        "{\"keys\":[{\"crv\":\"P-256\",\"kid\":\"k\",\"kty\":\"EC\",\"use\":\"jwt-svid\",\"x\":\"AAAAAAAAAAAAAAAAAAAAAAAAAAAAAAAAAAAAAAAAAAA\",\"y\":\"AAAAAAAAAAAAAAAAAAAAAAAAAAAAAAAAAAAAAAAAAAA\"},{\"crv\":\"P-256\",\"kid\":\"l\",\"kty\":\"EC\",\"use\":\"jwt-svid\",\"x\":\"AAAAAAAAAAAAAAAAAAAAAAAAAAAAAAAAAAAAAAAAAAA\",\"y\":\"AAAAAAAAAAAAAAAAAAAAAAAAAAAAAAAAAAAAAAAAAAA\"}]}",
        None,
        None,
        2,
    ),
];

/// The texts of a bundle's authorities in a list, as its canonical text begins.
fn front_of(alloc: Global, bundle: &Bundle) -> Result<Vec<u8>, AllocError> {
    let mut front = Vec::from_slice(alloc, b"{\"keys\":[")?;
    for (place, authority) in bundle.authorities().iter().enumerate() {
        if place > 0 {
            front.push(b',')?;
        }
        let kept = authority.decode(alloc)?;
        let entry = write_entry(alloc, &kept);
        drop(kept);
        front.extend_from_slice(&entry?)?;
    }
    front.push(b']')?;
    Ok(front)
}

/// The bundle is as the row says, and its canonical text reads back as it.
fn is_read(rt: &impl Abort, alloc: Global, read: &Bundle, row: &Row<'_>) -> Result<(), DocError> {
    let &(document, text, sequence, refresh_hint, count) = row;
    let written = write_document(alloc, read)?;
    let front = front_of(alloc, read)?;
    let is_again = read_document(alloc, &written)? == *read;
    let texts = (read.text(), written.as_slice());
    is_equal_at(rt, &texts, &(text.as_bytes(), text.as_bytes()), &document);
    is_equal_at(
        rt,
        &(
            read.sequence(),
            read.refresh_hint(),
            read.authorities().len(),
            read.text_len(),
        ),
        &(sequence, refresh_hint, count, text.len()),
        &document,
    );
    let is_so = (is_again, text.as_bytes().starts_with(&front));
    is_equal_at(rt, &is_so, &(true, true), &document);
    Ok(())
}

#[test]
fn bundles(rt: HostRuntime) -> Result<(), DocError> {
    for row in &BUNDLES {
        let read = bundle(rt.alloc(), row.0)?;
        is_read(&rt, rt.alloc(), &read, row)?;
    }
    Ok(())
}
